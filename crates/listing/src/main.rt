//! Reads an office's sheet from standard input, and prints which classes are under which others, or why that is refused.
#![tactic(auto)]

use classifier::classify;
use lines::{MOST_BYTES, refusal_line, under_line};
use sheets::Sheet;
use sources::Source;
use std::alloc::AllocError;
use std::io;
use std::io::Read;
use tables::{ClauseRecord, ContextRecord};
use terms::{ClassSet, Fault};

/// The slots of the context table.
const CONTEXTS: usize = 64;

/// The slots of the clause table.
const CLAUSES: usize = 1024;

/// Classifies an open sheet into the rows.
fn fill_rows(sheet: &Sheet, rows: &mut [u64]) -> Result<(), Fault> {
    let mut contexts = [ContextRecord::default(); CONTEXTS];
    let mut clauses = [ClauseRecord::default(); CLAUSES];
    classify(sheet, &mut contexts, &mut clauses, rows)
}

/// Prints the line of a refusal.
// The length comes beside the buffer, here and below, since `lines` has no heap.
fn tell(rt: &HostRuntime, fault: Fault) -> io::Result<()> {
    let mut buffer = [0; MOST_BYTES];
    let len = refusal_line(fault, &mut buffer).unwrap();
    rt.write_all(&buffer[..len])
}

/// Appends the line of a class under another.
fn push_line(lines: &mut Vec<u8>, sheet: &Sheet, lower: u8, upper: u8) -> Result<(), AllocError> {
    let mut buffer = [0; MOST_BYTES];
    if let Ok(len) = under_line(sheet, lower, upper, &mut buffer) {
        lines.extend_from_slice(&buffer[..len])?;
    }
    Ok(())
}

/// Prints a line for each class and each other class that it is under.
fn list(rt: &HostRuntime, sheet: &Sheet, rows: &[u64]) -> io::Result<()> {
    let mut lines = Vec::new(rt.alloc());
    for (lower, row) in (0..sheet.class_count()).zip(rows) {
        for upper in ClassSet::from_bits(*row).classes() {
            if upper != lower {
                push_line(&mut lines, sheet, lower, upper)?;
            }
        }
    }
    rt.write_all(&lines)
}

// `report` reads its sheet in the same lines: they fill a `Vec`, and the crates below both programs have no heap.
fn main(rt: HostRuntime) -> io::Result<()> {
    let mut text = Vec::new(rt.alloc());
    rt.stdin()
        .take(1 + Sheet::MOST_BYTES as u64)
        .read_to_end(&mut text)?;
    let mut sheet = Sheet::new();
    if let Err(fault) = sheet.open(&text) {
        return tell(&rt, fault);
    }
    let mut rows = [0; ClassSet::MOST as usize];
    match fill_rows(&sheet, &mut rows) {
        Ok(()) => list(&rt, &sheet, &rows),
        Err(fault) => tell(&rt, fault),
    }
}
