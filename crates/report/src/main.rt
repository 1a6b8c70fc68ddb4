//! Opens the sheet on standard input, and prints what it says or why it is refused.
#![tactic(auto)]

mod sentences;

use sentences::Sentences;
use sheets::Sheet;
use sources::Source;
use std::io;
use std::io::Read;

/// Prints the counts of an open sheet, and its axioms line by line.
// `sheet_cases` prints the counts in the same lines: one more type to print them by would be no shorter in either program.
fn report(rt: &HostRuntime, sheet: &Sheet) -> io::Result<()> {
    let classes = sheet.class_count();
    let roles = sheet.role_count();
    let axioms = sheet.axiom_count();
    println!(rt; "{classes} classes, {roles} roles, {axioms} axioms")?;
    let mut lines = Sentences::new(rt.alloc(), sheet);
    // A source answers an axiom by its number, so the loop counts.
    for number in 0..axioms {
        lines.line(sheet.axiom_at(number).unwrap())?;
    }
    rt.write_all(lines.as_bytes())
}

// `listing` reads its sheet in the same lines: they fill a `Vec`, and the crates below both programs have no heap.
fn main(rt: HostRuntime) -> io::Result<()> {
    let mut text = Vec::new(rt.alloc());
    rt.stdin()
        .take(1 + Sheet::MOST_BYTES as u64)
        .read_to_end(&mut text)?;
    let mut sheet = Sheet::new();
    match sheet.open(&text) {
        Ok(()) => report(&rt, &sheet),
        Err(fault) => println!(rt; "{fault}"),
    }
}
