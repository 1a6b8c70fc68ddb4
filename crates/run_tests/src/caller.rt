//! A caller who chooses each call after what it heard.
use crate::sharing::*;
use book::Book;
use reasoner::Answer;
use runs::{Call, Caller, Heard, converse};
use sources::{RecordTable, Source};
use std::test::Fail;
use tables::{ClauseRecord, ContextRecord};

/// Asks whether payroll can be without shared, and says that wages are shared once it can. It writes over the tables before each call.
#[derive(Drop)]
struct Asker {
    // `free` falls with the next call, while `shown` stays to the end.
    free: bool,
    shown: Option<u64>,
}

impl<'a> Caller<Call<'a>> for Asker {
    fn call(
        &mut self,
        contexts: &mut [ContextRecord],
        clauses: &mut [ClauseRecord],
        model: &mut [u64],
    ) -> Call<'a> {
        contexts.fill(ContextRecord::default());
        clauses.fill(ClauseRecord::default());
        model.fill(77);
        if self.free {
            self.free = false;
            return Call::Add {
                axiom: inclusion(4, 8),
            };
        }
        payroll_not_shared(6, Some(1))
    }

    fn hear<S: Source>(&mut self, _book: &Book<S>, _call: Call<'a>, heard: Heard, model: &[u64]) {
        if let Heard::Asked {
            told: Ok(Answer::Something { .. }),
        } = heard
        {
            self.free = true;
            self.shown = model.first().copied();
        }
    }
}

#[test]
fn an_axiom_more_and_asked_again(rt: HostRuntime) -> Result<(), Fail> {
    let below = [inclusion(1, 6), inclusion(2, 8)];
    let mut source = RecordTable::new();
    source.open(4, 0, &below)?;
    let mut caller = Asker {
        free: false,
        shown: None,
    };
    let mut calls = [payroll_not_shared(0, None); 3];
    let mut heard = [done(); 3];
    let mut model = [0; 2];
    let made = converse(
        source,
        &mut caller,
        &mut calls,
        &mut heard,
        &mut [ContextRecord::default(); 1],
        &mut [ClauseRecord::default(); 6],
        &mut model,
    );
    assert_eq!(rt; made, 3);
    let wanted = [something(1, 2, Some(1)), done(), nothing(1, 6)];
    assert_eq!(rt; heard, wanted);
    assert_eq!(rt; caller.shown, Some(5));
    assert_eq!(rt; model, [77, 77]);
    Ok(())
}
