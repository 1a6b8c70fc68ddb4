//! Makes many lines, one case a line of standard input, and prints what each call answers and the whole buffer after it.
//!
//! `class NAME` declares the next class, `under SIZE LOWER UPPER` makes the line of two classes, and `refusal SIZE NUMBER PLACE` that of
//! a refusal, each in a buffer of SIZE bytes that are dots at first.
#![tactic(auto)]

use sheets::Sheet;
use std::alloc::AllocError;
use std::io;
use std::io::{BufRead, BufReader};
use terms::{Fault, Layer, Refusal};

/// A case, which is a line of words.
#[derive(Clone, Copy)]
enum Case<'a> {
    /// Declares the next class by this name.
    Class(&'a str),
    /// Makes the line of two classes.
    Under {
        size: usize,
        lower: u8,
        upper: u8,
    },
    /// Makes the line of a refusal.
    Refusal {
        size: usize,
        kind: Refusal,
        place: usize,
    },
}

impl<'a> Case<'a> {
    /// The case that a line is, if it is one.
    fn read(line: &'a str) -> Option<Self> {
        let mut words = line.split(' ');
        match words.next()? {
            "class" => Some(Case::Class(words.next()?)),
            "under" => Some(Case::Under {
                size: words.next()?.parse().ok()?,
                lower: words.next()?.parse().ok()?,
                upper: words.next()?.parse().ok()?,
            }),
            "refusal" => Some(Case::Refusal {
                size: words.next()?.parse().ok()?,
                kind: Refusal::try_from(words.next()?.parse::<u8>().ok()?).ok()?,
                place: words.next()?.parse().ok()?,
            }),
            _ => None,
        }
    }
}

/// Appends the field of a class of that name.
fn push_class(sheet: &mut Vec<u8>, name: &str) -> Result<(), AllocError> {
    let len = name.len();
    if len <= 40 {
        sheet.extend_from_slice(&[1, 0, len as u8])?;
        sheet.extend_from_slice(name.as_bytes())?;
    }
    Ok(())
}

/// Prints what a call answered, and the buffer after it.
fn tell(rt: &HostRuntime, answer: Result<usize, Fault>, buffer: &[u8]) -> io::Result<()> {
    match answer {
        Ok(len) => println!(rt; "{len} bytes")?,
        Err(fault) => println!(rt; "{fault:?}")?,
    }
    rt.write_all(buffer)?;
    println!(rt)
}

/// Makes the line of two classes of a sheet.
fn tell_under(rt: &HostRuntime, text: &[u8], size: usize, lower: u8, upper: u8) -> io::Result<()> {
    let mut sheet = Sheet::new();
    if sheet.open(text).is_err() {
        return println!(rt; "no sheet");
    }
    let mut buffer = vec![in rt.alloc(); b'.'; size]?;
    let answer = lines::under_line(&sheet, lower, upper, &mut buffer);
    tell(rt, answer, &buffer)
}

/// Makes the line of a refusal.
fn tell_refusal(rt: &HostRuntime, size: usize, kind: Refusal, place: usize) -> io::Result<()> {
    let mut buffer = vec![in rt.alloc(); b'.'; size]?;
    let answer = lines::refusal_line(kind.at(place, Layer::Book), &mut buffer);
    tell(rt, answer, &buffer)
}

/// Carries out one case, or says that it is none; the sheet's text is what was declared before it.
fn carry_out(rt: &HostRuntime, sheet: &mut Vec<u8>, line: &str) -> io::Result<()> {
    match Case::read(line) {
        Some(Case::Class(name)) => Ok(push_class(sheet, name)?),
        Some(Case::Under { size, lower, upper }) => tell_under(rt, sheet, size, lower, upper),
        Some(Case::Refusal { size, kind, place }) => tell_refusal(rt, size, kind, place),
        None => println!(rt; "no case"),
    }
}

fn main(rt: HostRuntime) -> io::Result<()> {
    let mut sheet = Vec::new(rt.alloc());
    for line in BufReader::new(rt.alloc(), rt.stdin())?.lines(rt.alloc()) {
        carry_out(&rt, &mut sheet, line?.as_str())?;
    }
    Ok(())
}
