//! What a sheet answers as a source, at its numbers and past their end.
use crate::writing::*;
use sheets::Sheet;
use sources::Source;
use std::process::Abort;
use std::test::Fail;
use terms::{Fault, Layer, Refusal};

/// What a refusal past the end of a sheet is.
fn past() -> Fault {
    Refusal::PastEnd.at(0, Layer::Sheet)
}

/// A source with the payroll sheet's contents answers so, through the interface alone.
fn answers<S: Source>(rt: &impl Abort, source: &S) {
    assert_eq!(rt; counts(source), (4, 0, 3));
    assert_eq!(rt; source.axiom_at(2), Ok(inclusion(4, 8)));
    assert_eq!(rt; source.axiom_at(3), Err(past()));
    spells(rt, source, 2, b"wages");
    assert_eq!(rt; source.name_len(4), Err(past()));
    assert_eq!(rt; source.name_byte(2, 5), Err(past()));
    assert_eq!(rt; source.name_byte(4, 0), Err(past()));
}

#[test]
fn axioms_past_the_end(rt: HostRuntime) -> Result<(), Fail> {
    let sheet = payroll_sheet(rt.alloc())?;
    assert!(rt; sheet.axiom_at(2).is_ok());
    assert_eq!(rt; sheet.axiom_at(3), Err(past()));
    assert_eq!(rt; sheet.axiom_at(1024), Err(past()));
    assert_eq!(rt; sheet.axiom_at(usize::MAX), Err(past()));
    Ok(())
}

#[test]
fn name_lengths_past_the_end(rt: HostRuntime) -> Result<(), Fail> {
    let sheet = payroll_sheet(rt.alloc())?;
    assert_eq!(rt; sheet.name_len(3), Ok(6));
    assert_eq!(rt; sheet.name_len(4), Err(past()));
    assert_eq!(rt; sheet.name_len(64), Err(past()));
    assert_eq!(rt; sheet.name_len(255), Err(past()));
    Ok(())
}

#[test]
fn name_bytes_past_the_end(rt: HostRuntime) -> Result<(), Fail> {
    let sheet = payroll_sheet(rt.alloc())?;
    assert_eq!(rt; sheet.name_byte(0, 6), Ok(b'l'));
    assert_eq!(rt; sheet.name_byte(0, 7), Err(past()));
    assert_eq!(rt; sheet.name_byte(0, 40), Err(past()));
    assert_eq!(rt; sheet.name_byte(0, usize::MAX), Err(past()));
    assert_eq!(rt; sheet.name_byte(4, 0), Err(past()));
    assert_eq!(rt; sheet.name_byte(255, 0), Err(past()));
    Ok(())
}

#[test]
fn class_names_past_the_end(rt: HostRuntime) -> Result<(), Fail> {
    let sheet = payroll_sheet(rt.alloc())?;
    assert_eq!(rt; sheet.class_name(3), Some(b"shared".as_slice()));
    assert_eq!(rt; sheet.class_name(4), None);
    assert_eq!(rt; sheet.class_name(255), None);
    assert_eq!(rt; sheet.role_name(0), None);
    Ok(())
}

#[test]
fn role_names(rt: HostRuntime) -> Result<(), Fail> {
    let sheet = opened(&[2, 0, 2, 0x70, 0x71, 1, 0, 1, 0x41, 2, 0, 1, 0x72])?;
    assert!(rt; is_named(sheet.role_name(0), b"pq"));
    assert!(rt; is_named(sheet.role_name(1), b"r"));
    assert_eq!(rt; sheet.role_name(2), None);
    assert_eq!(rt; sheet.role_name(255), None);
    assert!(rt; is_named(sheet.class_name(0), b"A"));
    assert_eq!(rt; sheet.class_name(1), None);
    Ok(())
}

#[test]
fn through_the_interface(rt: HostRuntime) -> Result<(), Fail> {
    let sheet = payroll_sheet(rt.alloc())?;
    answers(&rt, &sheet);
    Ok(())
}

#[test]
fn a_lent_sheet(rt: HostRuntime) -> Result<(), Fail> {
    let sheet = payroll_sheet(rt.alloc())?;
    let lent = &sheet;
    answers::<&'_ _>(&rt, &lent);
    assert!(rt; agree::<Sheet, &'_ _>(&sheet, &lent));
    Ok(())
}
