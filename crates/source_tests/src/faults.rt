//! Refusals: their numbers, and how a fault is written.
use std::test::Fail;
use terms::{Layer, Refusal};

#[test]
fn numbers_of_sheets_and_tables(rt: HostRuntime) {
    let kinds = [
        (Refusal::SheetTooLong, 1),
        (Refusal::CutShort, 2),
        (Refusal::UnknownTag, 3),
        (Refusal::WrongLength, 4),
        (Refusal::NameByte, 5),
        (Refusal::NameRepeated, 6),
        (Refusal::Undeclared, 7),
        (Refusal::TooWide, 8),
        (Refusal::TooMany, 9),
        (Refusal::PastEnd, 10),
    ];
    for (kind, number) in kinds {
        assert_eq!(rt; kind.number(), number);
    }
}

#[test]
fn other_numbers(rt: HostRuntime) {
    let kinds = [
        (Refusal::TableSize, 11),
        (Refusal::WorldSize, 12),
        (Refusal::BadLink, 13),
        (Refusal::BookFull, 20),
        (Refusal::NoOwnAxiom, 21),
        (Refusal::ListFull, 22),
        (Refusal::ClosureFull, 23),
    ];
    for (kind, number) in kinds {
        assert_eq!(rt; kind.number(), number);
    }
}

#[test]
fn a_fault_has_its_parts(rt: HostRuntime) {
    let fault = Refusal::BadLink.at(5, Layer::World);
    assert_eq!(rt; fault.kind, Refusal::BadLink);
    assert_eq!(rt; fault.place, 5);
    assert_eq!(rt; fault.layer, Layer::World);
    assert_ne!(rt; fault, Refusal::BadLink.at(5, Layer::Line));
    assert_ne!(rt; fault, Refusal::BadLink.at(6, Layer::World));
    assert_ne!(rt; fault, Refusal::TableSize.at(5, Layer::World));
}

/// The text of a fault has its number and its place, and not its layer.
#[test]
fn written(rt: HostRuntime) -> Result<(), Fail> {
    let fault = Refusal::Undeclared.at(0, Layer::Sheet);
    let text = format!(in rt.alloc(); "{fault}")?;
    assert_eq!(rt; text.as_str(), "refused 7 at 0");
    let fault = Refusal::ClosureFull.at(usize::MAX, Layer::Classify);
    let text = format!(in rt.alloc(); "{fault}")?;
    assert_eq!(rt; text.as_str(), "refused 23 at 18446744073709551615");
    let fault = Refusal::TooMany.at(5124, Layer::RecordTable);
    let text = format!(in rt.alloc(); "{fault}")?;
    assert_eq!(rt; text.as_str(), "refused 9 at 5124");
    Ok(())
}
