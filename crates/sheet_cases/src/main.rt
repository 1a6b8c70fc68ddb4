//! Opens many sheets, one a line of standard input, and prints what came of each.
//!
//! A line is pairs of a count and bytes in hexadecimal: the sheet is the bytes of each pair, so many times over.
//! The answer is the numbers of classes, roles and axioms, or the refusal.
#![tactic(auto)]

use sheets::Sheet;
use sources::Source;
use std::alloc::{AllocError, AllocFailed};
use std::io;
use std::io::{BufRead, BufReader};

/// Why no sheet was made of a line.
#[derive(Clone, Copy)]
enum NoSheet {
    /// The line spells none.
    NotSpelled,
    /// There was no memory for it.
    OutOfMemory,
}

impl From<AllocFailed<u8>> for NoSheet {
    fn from(_failed: AllocFailed<u8>) -> Self {
        NoSheet::OutOfMemory
    }
}

/// The value of a hexadecimal digit.
// By its ranges: `to_digit` would take capital letters too.
fn digit(byte: u8) -> Result<u8, NoSheet> {
    match byte {
        b'0'..=b'9' => Ok(byte - b'0'),
        b'a'..=b'f' => Ok(byte - b'a' + 10),
        _ => Err(NoSheet::NotSpelled),
    }
}

/// Appends the bytes that the digits spell, two digits a byte.
fn push_hex(out: &mut Vec<u8>, digits: &[u8]) -> Result<(), NoSheet> {
    for pair in digits.chunks(2) {
        let [high, low] = pair else {
            return Err(NoSheet::NotSpelled);
        };
        out.push(digit(*high)?.wrapping_mul(16) | digit(*low)?)?;
    }
    Ok(())
}

/// Appends the sheet that a line spells.
fn push_line(out: &mut Vec<u8>, line: &str) -> Result<(), NoSheet> {
    let mut words = line.split(' ');
    // The words are taken two at a time, a count and its digits, and a `for` takes one.
    while let Some(count) = words.next() {
        let times = count.parse::<u32>().map_err(|_| NoSheet::NotSpelled)?;
        let Some(digits) = words.next() else {
            return Ok(());
        };
        for _ in 0..times {
            push_hex(out, digits.as_bytes())?;
        }
    }
    Ok(())
}

/// Prints what opening a text gives.
// `report` prints the counts in the same lines: one more type to print them by would be no shorter in either program.
fn answer(rt: &HostRuntime, text: &[u8]) -> io::Result<()> {
    let mut sheet = Sheet::new();
    match sheet.open(text) {
        Ok(()) => {
            let classes = sheet.class_count();
            let roles = sheet.role_count();
            let axioms = sheet.axiom_count();
            println!(rt; "{classes} classes, {roles} roles, {axioms} axioms")
        }
        Err(fault) => println!(rt; "{fault}"),
    }
}

fn main(rt: HostRuntime) -> io::Result<()> {
    for line in BufReader::new(rt.alloc(), rt.stdin())?.lines(rt.alloc()) {
        let mut text = Vec::new(rt.alloc());
        match push_line(&mut text, line?.as_str()) {
            Ok(()) => answer(&rt, &text)?,
            Err(NoSheet::NotSpelled) => println!(rt; "no sheet")?,
            Err(NoSheet::OutOfMemory) => return Err(AllocError.into()),
        }
    }
    Ok(())
}
