//! A list of calls, made one after the other.
use crate::sharing::*;
use runs::{Call, Heard, life};
use sources::RecordTable;
use std::test::Fail;
use tables::{ClauseRecord, ContextRecord};
use terms::Layer;
use worlds::Breach;

/// Payroll is finance or wages, and finance is shared. The book adds that wages are shared, then that nothing is wages, then nothing.
#[test]
fn a_book_changes_and_is_asked(rt: HostRuntime) -> Result<(), Fail> {
    let below = [inclusion(1, 6), inclusion(2, 8)];
    let mut source = RecordTable::new();
    source.open(4, 0, &below)?;
    let calls = [
        payroll_not_shared(6, None),
        Call::Add {
            axiom: inclusion(4, 8),
        },
        payroll_not_shared(6, Some(1)),
        payroll_not_shared(5, None),
        Call::AuditModel {
            words: &[1],
            roles: 0,
            size: 1,
        },
        Call::AuditEntries {
            classes: &[15, 8],
            links: &[],
        },
        Call::AuditModel {
            words: &[],
            roles: 0,
            size: 1,
        },
        Call::Add {
            axiom: inclusion(15, 0),
        },
        Call::Amend {
            number: 1,
            axiom: inclusion(4, 0),
        },
        Call::Amend {
            number: 0,
            axiom: inclusion(4, 0),
        },
        payroll_not_shared(6, None),
        Call::Strike { number: 1 },
        Call::Strike { number: 0 },
        payroll_not_shared(6, Some(1)),
    ];
    let mut heard = [done(); 15];
    let mut model = [77; 2];
    let made = life(
        source,
        &calls,
        &mut heard,
        &mut [ContextRecord::default(); 1],
        &mut [ClauseRecord::default(); 6],
        &mut model,
    );
    assert_eq!(rt; made, 14);
    let wanted = [
        something(1, 2, None),
        done(),
        nothing(1, 6),
        Heard::Asked {
            told: Err(refusal(23, Layer::Ask)?),
        },
        Heard::Audited {
            told: Ok(Some(Breach {
                number: 0,
                element: 0,
            })),
        },
        Heard::Audited { told: Ok(None) },
        Heard::Audited {
            told: Err(refusal(11, Layer::World)?),
        },
        Heard::Changed {
            told: Err(refusal(8, Layer::Book)?),
        },
        Heard::Changed {
            told: Err(refusal(21, Layer::Book)?),
        },
        done(),
        nothing(1, 5),
        Heard::Changed {
            told: Err(refusal(21, Layer::Book)?),
        },
        done(),
        something(1, 2, Some(1)),
    ];
    assert_eq!(rt; heard[..14], wanted[..]);
    assert_eq!(rt; heard[14], done());
    assert_eq!(rt; model, [5, 77]);
    Ok(())
}
