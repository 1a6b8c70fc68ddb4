//! Asks one question for each line of standard input, and prints the verdict and the counts: a load to time.
//!
//! A line is 100, 300 or 1000: about so many clauses the closure has. Its axioms are those of an office of some depth and width.
//! There is a chain of levels, each with a successor in the next; a row of marks, each level in the first or in one of the first two, each mark
//! in the next, and each two neighbours in the one behind them. What has a successor in the last mark is in another class, and all successors of
//! that class are in one more.
#![tactic(auto)]

use reasoner::{Answer, ask};
use sources::RecordTable;
use std::alloc::{AllocError, Global};
use std::io;
use std::io::{BufRead, BufReader};
use tables::{ClauseRecord, ContextRecord};
use terms::{Axiom, ClassSet, Fault};

/// How many levels and marks there are: the levels are classes from 0 up, and the marks follow them.
#[derive(Clone, Copy)]
struct Office {
    depth: u8,
    width: u8,
}

impl Office {
    /// The office whose closure has about so many clauses.
    fn of(clauses: u32) -> Office {
        match clauses {
            100 => Office { depth: 3, width: 6 },
            300 => Office {
                depth: 5,
                width: 10,
            },
            _ => Office {
                depth: 14,
                width: 10,
            },
        }
    }

    /// The class of a mark.
    fn mark(self, number: u8) -> u8 {
        self.depth.wrapping_add(number)
    }

    /// The set of one mark.
    fn only(self, number: u8) -> ClassSet {
        ClassSet::single(self.mark(number) % 64)
    }

    /// The levels: each is in a mark, or in one of two, and has a successor in the next.
    fn push_levels(self, axioms: &mut Vec<Axiom>) -> Result<(), AllocError> {
        for level in 0..self.depth {
            let lower = ClassSet::single(level % 64);
            let upper = if level % 2 == 0 {
                self.only(0)
            } else {
                self.only(0).union(self.only(1))
            };
            axioms.push(Axiom::Inclusion { lower, upper })?;
        }
        for level in 1..self.depth {
            axioms.push(Axiom::Exists {
                lower: level - 1,
                role: (level - 1) % 2,
                filler: level,
            })?;
        }
        Ok(())
    }

    /// The marks: each is in the next, and two neighbours are in the one behind them.
    fn push_marks(self, axioms: &mut Vec<Axiom>) -> Result<(), AllocError> {
        for mark in 1..self.width {
            axioms.push(Axiom::Inclusion {
                lower: self.only(mark - 1),
                upper: self.only(mark),
            })?;
        }
        for mark in 2..self.width {
            axioms.push(Axiom::Inclusion {
                lower: self.only(mark - 2).union(self.only(mark - 1)),
                upper: self.only(mark),
            })?;
        }
        Ok(())
    }

    /// All axioms.
    fn axioms(self, heap: Global) -> Result<Vec<Axiom>, AllocError> {
        let mut axioms = Vec::new(heap);
        self.push_levels(&mut axioms)?;
        self.push_marks(&mut axioms)?;
        let above = self.mark(self.width);
        axioms.push(Axiom::ExistsLower {
            role: 1,
            filler: above.wrapping_sub(1),
            upper: above,
        })?;
        axioms.push(Axiom::Forall {
            lower: above,
            role: 1,
            filler: above.wrapping_add(1),
        })?;
        axioms.push(Axiom::RoleInclusion { sub: 0, sup: 1 })?;
        Ok(axioms)
    }
}

/// Asks whether there can be an element in the first level.
fn answer(
    axioms: &[Axiom],
    contexts: &mut [ContextRecord],
    clauses: &mut [ClauseRecord],
) -> Result<Answer, Fault> {
    let mut source = RecordTable::new();
    source.open(64, 2, axioms)?;
    ask(
        &source,
        ClassSet::single(0),
        ClassSet::empty(),
        contexts,
        clauses,
    )
}

/// Asks in an office with large tables, and prints what is told.
fn tell(rt: &HostRuntime, office: Office) -> io::Result<()> {
    let heap = rt.alloc();
    let axioms = office.axioms(heap)?;
    let mut contexts = vec![in heap; ContextRecord::default(); 256]?;
    let mut clauses = vec![in heap; ClauseRecord::default(); 4096]?;
    // One match gives the verdict and the counts, which both cases have.
    let (verdict, counts) = match answer(&axioms, &mut contexts, &mut clauses) {
        Ok(Answer::Nothing { counts }) => ("none", counts),
        Ok(Answer::Something { counts, .. }) => ("some", counts),
        Err(fault) => return println!(rt; "{fault}"),
    };
    let contexts = counts.contexts;
    let clauses = counts.clauses;
    println!(rt; "{verdict}, contexts {contexts}, clauses {clauses}")
}

fn main(rt: HostRuntime) -> io::Result<()> {
    for line in BufReader::new(rt.alloc(), rt.stdin())?.lines(rt.alloc()) {
        match line?.as_str().parse::<u32>() {
            Ok(clauses) => tell(&rt, Office::of(clauses))?,
            Err(_) => println!(rt; "no number")?,
        }
    }
    Ok(())
}
