//! Makes calls on books, one case a line of standard input, and prints what came of each call.
//!
//! A line is the number of records in a record table of 5 classes, then the calls on a book over it, and perhaps `|` and the calls on a book over that book.
//! An axiom is written as the number whose bits are its classes on the left. `add:7` adds 7, `amend:2:7` amends own axiom 2 to 7, `strike:2` strikes own axiom 2,
//! `axiom:2` asks for the axiom at number 2, `length:2` for the length of class 2's name, and `byte:2` for the first byte of it.
#![tactic(auto)]

mod call;

use book::Book;
use call::{Call, bits, inclusion};
use sources::{RecordTable, Source};
use std::io;
use std::io::{BufRead, BufReader};
use terms::{Axiom, Fault};

/// Makes a call: the number that was asked for, or how many own axioms there are after a change.
fn make<S: Source>(book: &mut Book<S>, call: Call) -> Result<u64, Fault> {
    match call {
        Call::Add(axiom) => book.add(axiom)?,
        Call::Amend(number, axiom) => book.amend(number, axiom)?,
        Call::Strike(number) => book.strike(number)?,
        Call::AxiomAt(number) => return Ok(bits(book.axiom_at(number)?)),
        Call::NameLen(class) => return Ok(book.name_len(class)? as u64),
        Call::NameByte(class) => return Ok(u64::from(book.name_byte(class, 0)?)),
    }
    Ok(book.own_axioms().len() as u64)
}

/// Prints the length of the list and the own axioms.
fn print_list<S: Source>(rt: &HostRuntime, book: &Book<S>) -> io::Result<()> {
    let count = book.axiom_count();
    print!(rt; "list of {count}, own:")?;
    for axiom in book.own_axioms() {
        let number = bits(*axiom);
        print!(rt; " {number}")?;
    }
    println!(rt; "")
}

/// Makes the calls that a text has, and prints what came of each, and then the list.
fn make_all<S: Source>(rt: &HostRuntime, book: &mut Book<S>, calls: &str) -> io::Result<()> {
    for word in calls.split(' ') {
        if let Ok(call) = word.parse::<Call>() {
            match make(book, call) {
                Ok(number) => println!(rt; "{word} gives {number}")?,
                Err(fault) => {
                    let layer = fault.layer;
                    println!(rt; "{word} {fault} in {layer:?}")?;
                }
            }
        }
    }
    print_list(rt, book)
}

/// Makes the calls of a case on a book over the source, and perhaps on a book over that book.
fn lay<S: Source + Drop>(rt: &HostRuntime, source: S, calls: &str) -> io::Result<()> {
    let mut book = Book::new(source);
    match calls.split_once('|') {
        Some((lower, upper)) => {
            make_all(rt, &mut book, lower)?;
            let mut over = Book::new(&book);
            make_all(rt, &mut over, upper)
        }
        None => make_all(rt, &mut book, calls),
    }
}

/// Makes the calls of a case over a table of these records.
fn open(rt: &HostRuntime, records: &[Axiom], calls: &str) -> io::Result<()> {
    let mut table = RecordTable::new();
    match table.open(5, 0, records) {
        Ok(()) => lay(rt, table, calls),
        Err(fault) => println!(rt; "{fault}"),
    }
}

/// Makes the calls of a case over a table of so many records.
fn answer(rt: &HostRuntime, records: usize, calls: &str) -> io::Result<()> {
    match [inclusion(1); 1024].get(..records) {
        Some(records) => open(rt, records, calls),
        None => println!(rt; "no case"),
    }
}

/// The number of records and the calls that a line has.
fn read(line: &str) -> Option<(usize, &str)> {
    let (records, calls) = line.split_once(' ')?;
    Some((records.parse::<usize>().ok()?, calls))
}

fn main(rt: HostRuntime) -> io::Result<()> {
    for line in BufReader::new(rt.alloc(), rt.stdin())?.lines(rt.alloc()) {
        match read(line?.as_str()) {
            Some((records, calls)) => answer(&rt, records, calls)?,
            None => println!(rt; "no case")?,
        }
    }
    Ok(())
}
