//! Writing sheets, and what the tests share.
use sheets::Sheet;
use sources::Source;
use std::alloc::{AllocError, Global};
use std::process::Abort;
use std::test::Fail;
use terms::{Axiom, ClassSet, Fault, Layer, Refusal};

/// Appends a field.
pub fn field(out: &mut Vec<u8>, tag: u8, body: &[u8]) -> Result<(), AllocError> {
    let len = body.len().min(65535) as u16;
    out.push(tag)?;
    out.extend_from_slice(&len.to_be_bytes())?;
    out.extend_from_slice(body)
}

/// Declares so many classes, by tag 1, or roles, by tag 2, named by one byte each, from `!` up.
pub fn declare(out: &mut Vec<u8>, tag: u8, count: u8) -> Result<(), AllocError> {
    for i in 0..count.min(94) {
        field(out, tag, &[33 + i])?;
    }
    Ok(())
}

/// The body of an inclusion.
pub fn masks(lower: u64, upper: u64) -> [u8; 16] {
    let mut body = [0; 16];
    body[0..8].copy_from_slice(&lower.to_be_bytes());
    body[8..16].copy_from_slice(&upper.to_be_bytes());
    body
}

/// The inclusion with these masks.
// The test crates share nothing but the crates under test.
pub fn inclusion(lower: u64, upper: u64) -> Axiom {
    Axiom::Inclusion {
        lower: ClassSet::from_bits(lower),
        upper: ClassSet::from_bits(upper),
    }
}

/// A sheet: payroll is in finance or wages, and both of these are in shared.
pub fn payroll(heap: Global) -> Result<Vec<u8>, AllocError> {
    let mut text = Vec::new(heap);
    field(&mut text, 1, b"payroll")?;
    field(&mut text, 1, b"finance")?;
    field(&mut text, 1, b"wages")?;
    field(&mut text, 1, b"shared")?;
    field(&mut text, 3, &masks(1, 6))?;
    field(&mut text, 3, &masks(2, 8))?;
    field(&mut text, 3, &masks(4, 8))?;
    Ok(text)
}

/// The sheet that a text gives.
pub fn opened(text: &[u8]) -> Result<Sheet, Fault> {
    let mut sheet = Sheet::new();
    sheet.open(text)?;
    Ok(sheet)
}

/// The payroll sheet, opened.
pub fn payroll_sheet(heap: Global) -> Result<Sheet, Fail> {
    let text = payroll(heap)?;
    Ok(opened(text.as_slice())?)
}

/// How many classes, roles and axioms a source has.
pub fn counts<S: Source>(source: &S) -> (u8, u8, usize) {
    (
        source.class_count(),
        source.role_count(),
        source.axiom_count(),
    )
}

/// Opens the text, which is to have so many classes, roles and axioms.
pub fn opens(rt: &impl Abort, text: &[u8], classes: u8, roles: u8, axioms: usize) {
    let mut sheet = Sheet::new();
    assert_eq!(rt; sheet.open(text), Ok(()), "opening {text:?}");
    assert_eq!(rt; counts(&sheet), (classes, roles, axioms), "of {text:?}");
}

/// Opens the text, which is to be refused for that at the place, and to leave the sheet empty.
pub fn refused(rt: &impl Abort, text: &[u8], kind: Refusal, place: usize) {
    let mut sheet = Sheet::new();
    let wanted = Err(kind.at(place, Layer::Sheet));
    assert_eq!(rt; sheet.open(text), wanted, "opening {text:?}");
    assert_eq!(rt; counts(&sheet), (0, 0, 0));
}

/// The class is to have that name, as its length and byte for byte.
pub fn spells<S: Source>(rt: &impl Abort, source: &S, class: u8, name: &[u8]) {
    assert_eq!(rt; source.name_len(class), Ok(name.len()));
    for (i, byte) in name.iter().enumerate() {
        assert_eq!(rt; source.name_byte(class, i), Ok(*byte));
    }
}

/// Whether two sources have the same counts, axioms and names.
pub fn agree<S: Source, T: Source>(one: &S, other: &T) -> bool {
    counts(one) == counts(other)
        && (0..one.axiom_count()).all(|i| one.axiom_at(i) == other.axiom_at(i))
        && (0..one.class_count()).all(|class| same_name(one, other, class))
}

/// Whether a class has the same name in both sources.
fn same_name<S: Source, T: Source>(one: &S, other: &T, class: u8) -> bool {
    one.name_len(class) == other.name_len(class)
        && (0..40).all(|i| one.name_byte(class, i) == other.name_byte(class, i))
}

/// Whether a name was found, and is just this one.
// The two names have lifetimes of their own, which an `assert_eq!` of two options does not keep apart.
pub fn is_named(found: Option<&[u8]>, wanted: &[u8]) -> bool {
    found.is_some_and(|name| name == wanted)
}
