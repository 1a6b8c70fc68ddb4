//! Finding a class by its name.
use crate::writing::*;
use sheets::Sheet;
use sources::{RecordTable, find_class};
use std::test::Fail;

#[test]
fn on_a_sheet(rt: HostRuntime) -> Result<(), Fail> {
    let sheet = payroll_sheet(rt.alloc())?;
    assert_eq!(rt; find_class(&sheet, b"payroll"), Some(0));
    assert_eq!(rt; find_class(&sheet, b"finance"), Some(1));
    assert_eq!(rt; find_class(&sheet, b"wages"), Some(2));
    assert_eq!(rt; find_class(&sheet, b"shared"), Some(3));
    Ok(())
}

#[test]
fn absent(rt: HostRuntime) -> Result<(), Fail> {
    let sheet = payroll_sheet(rt.alloc())?;
    assert_eq!(rt; find_class(&sheet, b"holiday"), None);
    assert_eq!(rt; find_class(&sheet, b"Payroll"), None);
    assert_eq!(rt; find_class(&sheet, b"payrolL"), None);
    assert_eq!(rt; find_class(&sheet, b""), None);
    Ok(())
}

#[test]
fn prefixes_and_longer_names(rt: HostRuntime) -> Result<(), Fail> {
    let sheet = payroll_sheet(rt.alloc())?;
    assert_eq!(rt; find_class(&sheet, b"payrol"), None);
    assert_eq!(rt; find_class(&sheet, b"p"), None);
    assert_eq!(rt; find_class(&sheet, b"payrolls"), None);
    assert_eq!(rt; find_class(&sheet, b"payroll\0"), None);
    let long = [b'p'; 41];
    assert_eq!(rt; find_class(&sheet, &long), None);
    Ok(())
}

/// Roles are no classes.
#[test]
fn roles_are_not_found(rt: HostRuntime) -> Result<(), Fail> {
    let sheet = opened(&[2, 0, 1, 0x70, 1, 0, 1, 0x41])?;
    assert_eq!(rt; find_class(&sheet, b"p"), None);
    assert_eq!(rt; find_class(&sheet, b"A"), Some(0));
    Ok(())
}

/// Every class of a table has the empty name, and the lowest is found.
#[test]
fn on_a_table(rt: HostRuntime) -> Result<(), Fail> {
    let mut table = RecordTable::new();
    assert_eq!(rt; find_class(&table, b""), None);
    table.open(3, 1, &[])?;
    assert_eq!(rt; find_class(&table, b""), Some(0));
    assert_eq!(rt; find_class(&table, b"A"), None);
    table.open(0, 1, &[])?;
    assert_eq!(rt; find_class(&table, b""), None);
    Ok(())
}
