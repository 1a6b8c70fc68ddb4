//! The rows of small offices, what is refused, and where.
use classifier::classify;
use sources::RecordTable;
use std::test::Fail;
use tables::{ClauseRecord, ContextRecord};
use terms::{Axiom, ClassSet, Layer, Refusal};

/// An inclusion of the classes with the bits of `lower`.
// The test crates share nothing but the crates under test.
fn inclusion(lower: u64, upper: u64) -> Axiom {
    Axiom::Inclusion {
        lower: ClassSet::from_bits(lower),
        upper: ClassSet::from_bits(upper),
    }
}

/// Payroll is finance or wages, and both are shared: each of the three is under shared.
#[test]
fn both_ways_lead_to_shared(rt: HostRuntime) -> Result<(), Fail> {
    let axioms = [inclusion(1, 6), inclusion(2, 8), inclusion(4, 8)];
    let mut source = RecordTable::new();
    source.open(4, 0, &axioms)?;
    let mut contexts = [ContextRecord::default(); 1];
    let mut clauses = [ClauseRecord::default(); 6];
    let mut rows = [77; 5];
    assert_eq!(rt;
        classify(&source, &mut contexts, &mut clauses, &mut rows),
        Ok(())
    );
    assert_eq!(rt; rows, [9, 10, 12, 8, 77]);
    Ok(())
}

/// With one slot too few the first pair that does not fit is told, and the rows before it are written.
#[test]
fn one_slot_too_few(rt: HostRuntime) -> Result<(), Fail> {
    let axioms = [inclusion(4, 6), inclusion(2, 8)];
    let mut source = RecordTable::new();
    source.open(4, 0, &axioms)?;
    let mut contexts = [ContextRecord::default(); 1];
    let mut clauses = [ClauseRecord::default(); 2];
    let mut rows = [77; 4];
    assert_eq!(rt;
        classify(&source, &mut contexts, &mut clauses, &mut rows),
        Err(Refusal::ClosureFull.at(65, Layer::Ask))
    );
    assert_eq!(rt; rows, [1, 77, 77, 77]);
    Ok(())
}

/// A class that nothing can be in is under every class.
#[test]
fn an_impossible_class(rt: HostRuntime) -> Result<(), Fail> {
    let axioms = [inclusion(1, 0), inclusion(2, 4)];
    let mut source = RecordTable::new();
    source.open(3, 0, &axioms)?;
    let mut contexts = [ContextRecord::default(); 1];
    let mut clauses = [ClauseRecord::default(); 8];
    let mut rows = [0; 3];
    assert_eq!(rt;
        classify(&source, &mut contexts, &mut clauses, &mut rows),
        Ok(())
    );
    assert_eq!(rt; rows, [7, 6, 4]);
    Ok(())
}

/// No class at all, and 64 of them with nothing between them.
#[test]
fn none_and_all(rt: HostRuntime) -> Result<(), Fail> {
    let mut source = RecordTable::new();
    let mut contexts = [ContextRecord::default(); 1];
    let mut clauses = [ClauseRecord::default(); 2];
    let mut rows = [77; 65];
    assert_eq!(rt;
        classify(&source, &mut contexts, &mut clauses, &mut rows),
        Ok(())
    );
    assert_eq!(rt; rows[0], 77);
    source.open(64, 16, &[])?;
    assert_eq!(rt;
        classify(&source, &mut contexts, &mut clauses, &mut rows),
        Ok(())
    );
    assert_eq!(rt; rows[0], 1);
    assert_eq!(rt; rows[63], 1 << 63);
    assert_eq!(rt; rows[64], 77);
    Ok(())
}

/// Fewer rows than classes are refused, and nothing is written.
#[test]
fn too_few_rows(rt: HostRuntime) -> Result<(), Fail> {
    let mut source = RecordTable::new();
    source.open(3, 0, &[])?;
    let mut contexts = [ContextRecord::default(); 1];
    let mut clauses = [ClauseRecord::default(); 2];
    let mut rows = [77; 2];
    assert_eq!(rt;
        classify(&source, &mut contexts, &mut clauses, &mut rows),
        Err(Refusal::TableSize.at(0, Layer::Classify))
    );
    assert_eq!(rt; rows, [77, 77]);
    Ok(())
}
