//! A sheet that is opened again: it holds the new text's contents, or is refused and stays as it was.
use crate::writing::*;
use sheets::Sheet;
use sources::Source;
use std::alloc::{AllocError, Global};
use std::process::Abort;
use std::test::Fail;
use terms::Refusal;

/// The payroll sheet with two roles and an axiom more.
fn payroll_with_roles(heap: Global) -> Result<Vec<u8>, AllocError> {
    let mut text = payroll(heap)?;
    field(&mut text, 2, b"pays")?;
    field(&mut text, 2, b"owns")?;
    field(&mut text, 4, &[0, 1, 3])?;
    Ok(text)
}

/// Opens one text and then the other, which is to be refused so, and compares the sheet with the first text's.
fn keeps(rt: &impl Abort, good: &[u8], bad: &[u8], kind: Refusal) -> Result<(), Fail> {
    let wanted = opened(good)?;
    let mut sheet = opened(good)?;
    assert_eq!(rt; sheet.open(bad).map_err(|fault| fault.kind), Err(kind));
    assert!(rt; agree(&sheet, &wanted));
    for role in 0..17 {
        assert_eq!(rt; sheet.role_name(role), wanted.role_name(role));
    }
    Ok(())
}

#[test]
fn refusals_change_nothing(rt: HostRuntime) -> Result<(), Fail> {
    let good = payroll_with_roles(rt.alloc())?;
    keeps(&rt, good.as_slice(), &[1], Refusal::CutShort)?;
    keeps(&rt, good.as_slice(), &[8, 0, 0], Refusal::UnknownTag)?;
    keeps(&rt, good.as_slice(), &[1, 0, 0], Refusal::WrongLength)?;
    keeps(&rt, good.as_slice(), &[1, 0, 1, 32], Refusal::NameByte)
}

/// Nor where good fields stand before the one that is refused.
#[test]
fn late_refusals_change_nothing(rt: HostRuntime) -> Result<(), Fail> {
    let good = payroll_with_roles(rt.alloc())?;
    keeps(
        &rt,
        good.as_slice(),
        &[1, 0, 1, 0x41, 1, 0, 1, 0x41],
        Refusal::NameRepeated,
    )?;
    keeps(
        &rt,
        good.as_slice(),
        &[2, 0, 1, 0x41, 7, 0, 2, 0, 1],
        Refusal::Undeclared,
    )?;
    let mut bad = good.clone()?;
    field(&mut bad, 1, b"other")?;
    field(&mut bad, 3, &masks(15, 1))?;
    keeps(&rt, good.as_slice(), bad.as_slice(), Refusal::TooWide)
}

#[test]
fn opening_again_replaces(rt: HostRuntime) -> Result<(), Fail> {
    let mut sheet = opened(payroll_with_roles(rt.alloc())?.as_slice())?;
    sheet.open(&[1, 0, 1, 0x41, 2, 0, 1, 0x70])?;
    assert_eq!(rt; counts(&sheet), (1, 1, 0));
    assert!(rt; is_named(sheet.class_name(0), b"A"));
    assert_eq!(rt; sheet.class_name(1), None);
    assert!(rt; is_named(sheet.role_name(0), b"p"));
    assert_eq!(rt; sheet.role_name(1), None);
    assert!(rt; sheet.axiom_at(0).is_err());
    Ok(())
}

#[test]
fn the_empty_text_empties(rt: HostRuntime) -> Result<(), Fail> {
    let mut sheet = opened(payroll_with_roles(rt.alloc())?.as_slice())?;
    sheet.open(&[])?;
    assert_eq!(rt; counts(&sheet), (0, 0, 0));
    assert!(rt; sheet.class_name(0).is_none());
    assert!(rt; sheet.role_name(0).is_none());
    Ok(())
}
