//! Sheets that open, and what they hold then.
use crate::writing::*;
use sheets::Sheet;
use sources::Source;
use std::test::Fail;
use terms::{Axiom, Refusal};

#[test]
fn nothing(rt: HostRuntime) {
    opens(&rt, &[], 0, 0, 0);
}

#[test]
fn one_class(rt: HostRuntime) -> Result<(), Fail> {
    opens(&rt, &[0x01, 0x00, 0x01, 0x41], 1, 0, 0);
    let sheet = opened(&[0x01, 0x00, 0x01, 0x41])?;
    assert_eq!(rt; sheet.class_name(0), Some(b"A".as_slice()));
    assert_eq!(rt; sheet.class_name(1), None);
    spells(&rt, &sheet, 0, b"A");
    Ok(())
}

#[test]
fn payroll_counts(rt: HostRuntime) -> Result<(), Fail> {
    let text = payroll(rt.alloc())?;
    assert_eq!(rt; text.len(), 94);
    opens(&rt, text.as_slice(), 4, 0, 3);
    Ok(())
}

#[test]
fn payroll_axioms(rt: HostRuntime) -> Result<(), Fail> {
    let sheet = payroll_sheet(rt.alloc())?;
    assert_eq!(rt; sheet.axiom_at(0), Ok(inclusion(1, 6)));
    assert_eq!(rt; sheet.axiom_at(1), Ok(inclusion(2, 8)));
    assert_eq!(rt; sheet.axiom_at(2), Ok(inclusion(4, 8)));
    Ok(())
}

#[test]
fn payroll_names(rt: HostRuntime) -> Result<(), Fail> {
    let sheet = payroll_sheet(rt.alloc())?;
    let names = [
        (0, b"payroll".as_slice()),
        (1, b"finance".as_slice()),
        (2, b"wages".as_slice()),
        (3, b"shared".as_slice()),
    ];
    for (class, name) in names {
        assert_eq!(rt; sheet.class_name(class), Some(name));
        spells(&rt, &sheet, class, name);
    }
    Ok(())
}

/// The fields' bytes come in the order of the form's name.
#[test]
fn each_form(rt: HostRuntime) -> Result<(), Fail> {
    let mut text = Vec::new(rt.alloc());
    declare(&mut text, 1, 3)?;
    declare(&mut text, 2, 3)?;
    for tag in 4..7 {
        field(&mut text, tag, &[0, 1, 2])?;
    }
    field(&mut text, 7, &[1, 2])?;
    let sheet = opened(text.as_slice())?;
    let forms = [
        Axiom::Exists {
            lower: 0,
            role: 1,
            filler: 2,
        },
        Axiom::ExistsLower {
            role: 0,
            filler: 1,
            upper: 2,
        },
        Axiom::Forall {
            lower: 0,
            role: 1,
            filler: 2,
        },
        Axiom::RoleInclusion { sub: 1, sup: 2 },
    ];
    for (i, form) in forms.iter().enumerate() {
        assert_eq!(rt; sheet.axiom_at(i), Ok(*form));
    }
    Ok(())
}

/// Class 0 is the last bit of a mask, and class 63 the first.
#[test]
fn masks_have_the_high_byte_first(rt: HostRuntime) -> Result<(), Fail> {
    let mut text = Vec::new(rt.alloc());
    declare(&mut text, 1, 64)?;
    field(
        &mut text,
        3,
        &[0, 0, 0, 0, 0, 0, 0, 0x01, 0x80, 0, 0, 0, 0, 0, 0, 0],
    )?;
    field(
        &mut text,
        3,
        &[0, 0, 0, 0, 0, 0, 0x01, 0, 0, 0x40, 0, 0, 0, 0, 0, 0],
    )?;
    let sheet = opened(text.as_slice())?;
    assert_eq!(rt; sheet.axiom_at(0), Ok(inclusion(1, 1 << 63)));
    assert_eq!(rt; sheet.axiom_at(1), Ok(inclusion(1 << 8, 1 << 54)));
    Ok(())
}

/// With one class, the mask's last byte 01 is fine, and its first byte 80 speaks of class 63.
#[test]
fn mask_of_one_class(rt: HostRuntime) -> Result<(), Fail> {
    let mut text = Vec::new(rt.alloc());
    declare(&mut text, 1, 1)?;
    field(
        &mut text,
        3,
        &[0, 0, 0, 0, 0, 0, 0, 0x01, 0, 0, 0, 0, 0, 0, 0, 0x01],
    )?;
    opens(&rt, text.as_slice(), 1, 0, 1);
    field(
        &mut text,
        3,
        &[0x80, 0, 0, 0, 0, 0, 0, 0, 0, 0, 0, 0, 0, 0, 0, 0],
    )?;
    refused(&rt, text.as_slice(), Refusal::Undeclared, 23);
    Ok(())
}

#[test]
fn declarations_between_axioms(rt: HostRuntime) -> Result<(), Fail> {
    let mut text = Vec::new(rt.alloc());
    field(&mut text, 1, b"A")?;
    field(&mut text, 3, &masks(1, 1))?;
    field(&mut text, 1, b"B")?;
    field(&mut text, 3, &masks(2, 1))?;
    field(&mut text, 2, b"p")?;
    field(&mut text, 4, &[1, 0, 0])?;
    opens(&rt, text.as_slice(), 2, 1, 3);
    let sheet = opened(text.as_slice())?;
    assert_eq!(rt; sheet.axiom_at(0), Ok(inclusion(1, 1)));
    assert_eq!(rt; sheet.axiom_at(1), Ok(inclusion(2, 1)));
    spells(&rt, &sheet, 1, b"B");
    Ok(())
}

/// Empty sides speak of no class, so they need none.
#[test]
fn empty_sides(rt: HostRuntime) -> Result<(), Fail> {
    let mut text = Vec::new(rt.alloc());
    field(&mut text, 3, &masks(0, 0))?;
    opens(&rt, text.as_slice(), 0, 0, 1);
    Ok(())
}
