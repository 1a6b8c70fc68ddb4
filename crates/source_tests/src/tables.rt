//! Record tables: what opens, what is refused, and what they answer.
use crate::writing::*;
use sources::{RecordTable, Source};
use std::test::Fail;
use terms::{Axiom, Fault, Layer, Refusal};

/// A refusal in the layer of record tables.
fn at(kind: Refusal, place: usize) -> Fault {
    kind.at(place, Layer::RecordTable)
}

/// Every pair that role `sub` links is linked by role `sup`.
// The test crates share nothing but the crates under test.
fn roles(sub: u8, sup: u8) -> Axiom {
    Axiom::RoleInclusion { sub, sup }
}

/// What opening a fresh table with these tells.
fn told(class_count: u8, role_count: u8, records: &[Axiom]) -> Result<(), Fault> {
    let mut table = RecordTable::new();
    table.open(class_count, role_count, records)
}

#[test]
fn a_new_table(rt: HostRuntime) {
    let table = RecordTable::new();
    assert_eq!(rt; counts(&table), (0, 0, 0));
    assert_eq!(rt; table.axiom_at(0), Err(at(Refusal::PastEnd, 0)));
    assert_eq!(rt; table.name_len(0), Err(at(Refusal::PastEnd, 0)));
}

#[test]
fn opens_and_answers(rt: HostRuntime) -> Result<(), Fail> {
    let records = [
        inclusion(7, 8),
        roles(0, 1),
        Axiom::Exists {
            lower: 3,
            role: 1,
            filler: 0,
        },
    ];
    let mut table = RecordTable::new();
    table.open(4, 2, &records)?;
    assert_eq!(rt; counts(&table), (4, 2, 3));
    assert_eq!(rt; table.axiom_at(0), Ok(inclusion(7, 8)));
    assert_eq!(rt; table.axiom_at(1), Ok(roles(0, 1)));
    assert_eq!(rt; table.axiom_at(2), Ok(records[2]));
    Ok(())
}

#[test]
fn past_the_end(rt: HostRuntime) -> Result<(), Fail> {
    let records = [inclusion(1, 2)];
    let mut table = RecordTable::new();
    table.open(2, 1, &records)?;
    assert!(rt; table.axiom_at(0).is_ok());
    assert_eq!(rt; table.axiom_at(1), Err(at(Refusal::PastEnd, 0)));
    assert_eq!(rt; table.axiom_at(usize::MAX), Err(at(Refusal::PastEnd, 0)));
    assert_eq!(rt; table.name_len(2), Err(at(Refusal::PastEnd, 0)));
    assert_eq!(rt; table.name_len(255), Err(at(Refusal::PastEnd, 0)));
    Ok(())
}

#[test]
fn names_are_empty(rt: HostRuntime) -> Result<(), Fail> {
    let mut table = RecordTable::new();
    table.open(2, 1, &[])?;
    assert_eq!(rt; table.name_len(0), Ok(0));
    assert_eq!(rt; table.name_len(1), Ok(0));
    assert_eq!(rt; table.name_byte(0, 0), Err(at(Refusal::PastEnd, 0)));
    assert_eq!(rt; table.name_byte(1, 40), Err(at(Refusal::PastEnd, 0)));
    assert_eq!(rt; table.name_byte(2, 0), Err(at(Refusal::PastEnd, 0)));
    Ok(())
}

#[test]
fn a_lent_table(rt: HostRuntime) -> Result<(), Fail> {
    let records = [inclusion(1, 2), roles(0, 0)];
    let mut table = RecordTable::new();
    table.open(2, 1, &records)?;
    let lent = &table;
    assert_eq!(rt; counts::<&'_ _>(&lent), (2, 1, 2));
    assert!(rt; agree::<RecordTable<'_>, &'_ _>(&table, &lent));
    Ok(())
}

#[test]
fn too_many_classes(rt: HostRuntime) {
    assert_eq!(rt; told(64, 0, &[inclusion(1 << 63, 1)]), Ok(()));
    assert_eq!(rt;
        told(65, 0, &[inclusion(1 << 63, 1)]),
        Err(at(Refusal::TooMany, 0))
    );
    assert_eq!(rt; told(255, 0, &[]), Err(at(Refusal::TooMany, 0)));
}

#[test]
fn too_many_roles(rt: HostRuntime) {
    assert_eq!(rt; told(0, 16, &[roles(15, 0)]), Ok(()));
    assert_eq!(rt; told(0, 17, &[roles(15, 0)]), Err(at(Refusal::TooMany, 0)));
    assert_eq!(rt; told(0, 255, &[]), Err(at(Refusal::TooMany, 0)));
}

#[test]
fn too_many_records(rt: HostRuntime) {
    let most = [roles(0, 0); 1024];
    assert_eq!(rt; told(0, 1, &most), Ok(()));
    let more = [roles(0, 0); 1025];
    assert_eq!(rt; told(0, 1, &more), Err(at(Refusal::TooMany, 0)));
}

/// The sizes are checked before any record.
#[test]
fn too_many_before_the_records(rt: HostRuntime) {
    assert_eq!(rt; told(65, 0, &[roles(0, 0)]), Err(at(Refusal::TooMany, 0)));
    assert_eq!(rt;
        told(65, 0, &[inclusion(15, 0)]),
        Err(at(Refusal::TooMany, 0))
    );
    assert_eq!(rt; told(0, 17, &[roles(0, 17)]), Err(at(Refusal::TooMany, 0)));
    let undeclared = [roles(0, 1); 1025];
    assert_eq!(rt; told(0, 1, &undeclared), Err(at(Refusal::TooMany, 0)));
    let wide = [inclusion(15, 0); 1025];
    assert_eq!(rt; told(4, 0, &wide), Err(at(Refusal::TooMany, 0)));
}

#[test]
fn undeclared(rt: HostRuntime) {
    assert_eq!(rt; told(0, 1, &[roles(0, 1)]), Err(at(Refusal::Undeclared, 0)));
    assert_eq!(rt;
        told(0, 1, &[roles(0, 0), roles(1, 0)]),
        Err(at(Refusal::Undeclared, 1))
    );
    assert_eq!(rt;
        told(2, 0, &[inclusion(1, 2), inclusion(1, 4)]),
        Err(at(Refusal::Undeclared, 1))
    );
    assert_eq!(rt;
        told(2, 0, &[inclusion(4, 1)]),
        Err(at(Refusal::Undeclared, 0))
    );
    let mut records = [roles(0, 0); 1024];
    records[1023] = roles(1, 1);
    assert_eq!(rt; told(0, 1, &records), Err(at(Refusal::Undeclared, 1023)));
}

#[test]
fn undeclared_triples(rt: HostRuntime) {
    for (lower, role, filler) in [(2, 0, 0), (0, 1, 0), (0, 0, 2)] {
        let exists = Axiom::Exists {
            lower,
            role,
            filler,
        };
        let below = Axiom::ExistsLower {
            role,
            filler,
            upper: lower,
        };
        let forall = Axiom::Forall {
            lower,
            role,
            filler,
        };
        assert_eq!(rt;
            told(2, 1, &[roles(0, 0), exists]),
            Err(at(Refusal::Undeclared, 1))
        );
        assert_eq!(rt; told(2, 1, &[below]), Err(at(Refusal::Undeclared, 0)));
        assert_eq!(rt; told(2, 1, &[forall]), Err(at(Refusal::Undeclared, 0)));
        assert_eq!(rt; told(3, 2, &[exists, below, forall]), Ok(()));
    }
}

#[test]
fn too_wide(rt: HostRuntime) {
    assert_eq!(rt; told(4, 0, &[inclusion(7, 15)]), Ok(()));
    assert_eq!(rt;
        told(4, 0, &[inclusion(15, 1)]),
        Err(at(Refusal::TooWide, 0))
    );
    assert_eq!(rt;
        told(64, 0, &[inclusion(7, 1), inclusion(u64::MAX, 0)]),
        Err(at(Refusal::TooWide, 1))
    );
}

/// The first record that fails refuses, and within a record what is undeclared comes before what is too wide.
#[test]
fn first_record_first(rt: HostRuntime) {
    let good = inclusion(1, 2);
    let wide = inclusion(15, 1);
    let undeclared = inclusion(16, 1);
    assert_eq!(rt;
        told(4, 0, &[good, wide, undeclared]),
        Err(at(Refusal::TooWide, 1))
    );
    assert_eq!(rt;
        told(4, 0, &[good, good, undeclared, wide]),
        Err(at(Refusal::Undeclared, 2))
    );
    assert_eq!(rt; told(3, 0, &[good, wide]), Err(at(Refusal::Undeclared, 1)));
}

#[test]
fn refusals_change_nothing(rt: HostRuntime) -> Result<(), Fail> {
    let records = [inclusion(1, 2), roles(0, 0)];
    let others = [roles(1, 0), roles(1, 1), roles(1, 2)];
    let wide = [inclusion(15, 0)];
    let mut wanted = RecordTable::new();
    wanted.open(2, 1, &records)?;
    let mut table = RecordTable::new();
    table.open(2, 1, &records)?;
    assert_eq!(rt; table.open(3, 2, &others), Err(at(Refusal::Undeclared, 2)));
    assert_eq!(rt; table.open(65, 2, &others), Err(at(Refusal::TooMany, 0)));
    assert_eq!(rt; table.open(4, 0, &wide), Err(at(Refusal::TooWide, 0)));
    assert_eq!(rt; counts(&table), (2, 1, 2));
    assert_eq!(rt; table.axiom_at(1), Ok(roles(0, 0)));
    assert!(rt; agree(&table, &wanted));
    Ok(())
}

#[test]
fn opening_again_replaces(rt: HostRuntime) -> Result<(), Fail> {
    let records = [inclusion(1, 2), roles(0, 0)];
    let others = [roles(1, 0)];
    let mut table = RecordTable::new();
    table.open(2, 1, &records)?;
    table.open(1, 2, &others)?;
    assert_eq!(rt; counts(&table), (1, 2, 1));
    assert_eq!(rt; table.axiom_at(0), Ok(roles(1, 0)));
    assert_eq!(rt; table.axiom_at(1), Err(at(Refusal::PastEnd, 0)));
    Ok(())
}
