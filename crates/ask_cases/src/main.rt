//! Asks many questions, one case a line of standard input, and prints what each call told and whether a naive closure agrees.
//!
//! A line has the numbers of classes and roles, the held and the denied classes as numbers whose bits they are, the slots of the context
//! table and of the clause table, the words of the model table or `-` for a call without one, and the axioms, each the number of its form
//! and its parts with commas between. A naive closure says what the call should tell and which records the tables should hold; the
//! line ends with `ok`, or with what differs.
#![tactic(auto)]

mod cases;
mod comparison;
mod naive;

use cases::Case;
use comparison::{BLANK_WORD, Compared, Tables, compare, counts};
use naive::Naive;
use reasoner::{Answer, ask, ask_model};
use sources::RecordTable;
use std::io;
use std::io::{BufRead, BufReader};
use tables::{ClauseRecord, ContextRecord};
use terms::Fault;

/// The closure of the case's question; of the goal alone where it is to be refused for its classes.
fn closure(case: &Case) -> Naive {
    let goal = ContextRecord {
        held: case.held,
        denied: case.denied,
    };
    let mut naive = Naive::new(goal);
    if case.held.is_below(case.classes) && case.denied.is_below(case.classes) {
        naive.saturate(&case.axioms);
    }
    naive
}

/// Prints what a call told, with the first word of the model table where there is a model, and what differs.
fn print_line(
    rt: &HostRuntime,
    told: Result<Answer, Fault>,
    first: Option<u64>,
    compared: Compared,
) -> io::Result<()> {
    let answer = match told {
        Ok(answer) => answer,
        Err(fault) => {
            let layer = fault.layer;
            return println!(rt; "{fault}, layer {layer:?}: {compared}");
        }
    };
    let (verdict, elements) = match answer {
        Answer::Nothing { .. } => ("none", None),
        Answer::Something { elements, .. } => ("some", elements),
    };
    let contexts = counts(answer).contexts;
    let clauses = counts(answer).clauses;
    let word = elements.and(first).unwrap_or(0);
    println!(rt; "{verdict}, contexts {contexts}, clauses {clauses}, word {word}: {compared}")
}

/// Makes the call of a case with these tables, and prints what came of it.
fn carry_out(
    rt: &HostRuntime,
    case: &Case,
    contexts: &mut [ContextRecord],
    clauses: &mut [ClauseRecord],
    model: &mut [u64],
) -> io::Result<()> {
    let mut source = RecordTable::new();
    if source.open(case.classes, case.roles, &case.axioms).is_err() {
        return println!(rt; "no case");
    }
    let told = match case.words {
        Some(_) => ask_model(&source, case.held, case.denied, contexts, clauses, model),
        None => ask(&source, case.held, case.denied, contexts, clauses),
    };
    let naive = closure(case);
    let compared = compare(case, &naive, told, Tables { contexts, clauses }, model);
    print_line(rt, told, model.first().copied(), Compared(compared))
}

/// Makes the call of a case with tables of its own.
fn lend(rt: &HostRuntime, case: &Case) -> io::Result<()> {
    let heap = rt.alloc();
    let mut contexts = vec![in heap; comparison::blank_context(); case.context_slots]?;
    let mut clauses = vec![in heap; comparison::blank_clause(); case.clause_slots]?;
    let mut model = vec![in heap; BLANK_WORD; case.words.unwrap_or(0)]?;
    carry_out(rt, case, &mut contexts, &mut clauses, &mut model)
}

fn main(rt: HostRuntime) -> io::Result<()> {
    for line in BufReader::new(rt.alloc(), rt.stdin())?.lines(rt.alloc()) {
        let case = cases::read(rt.alloc(), line?.as_str())?;
        lend(&rt, &case)?;
    }
    Ok(())
}
