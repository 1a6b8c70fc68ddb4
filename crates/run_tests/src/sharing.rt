//! The calls that the tests make and what is to be heard of them.
use reasoner::Answer;
use runs::{Call, Heard};
use std::test::Fail;
use tables::Counts;
use terms::{Axiom, ClassSet, Fault, Layer, Refusal};

/// What is heard of a change that is made.
pub fn done() -> Heard {
    Heard::Changed { told: Ok(()) }
}

/// What is heard of an ask whose answer is none.
pub fn nothing(contexts: usize, clauses: usize) -> Heard {
    let counts = Counts { contexts, clauses };
    Heard::Asked {
        told: Ok(Answer::Nothing { counts }),
    }
}

/// What is heard of an ask whose answer is some.
pub fn something(contexts: usize, clauses: usize, elements: Option<usize>) -> Heard {
    let counts = Counts { contexts, clauses };
    Heard::Asked {
        told: Ok(Answer::Something { counts, elements }),
    }
}

/// The refusal of that number, at place 0.
pub fn refusal(number: u8, layer: Layer) -> Result<Fault, Fail> {
    Ok(Refusal::try_from(number)?.at(0, layer))
}

/// An inclusion of the classes with the bits of `lower`.
// The test crates share nothing but the crates under test.
pub fn inclusion(lower: u64, upper: u64) -> Axiom {
    Axiom::Inclusion {
        lower: ClassSet::from_bits(lower),
        upper: ClassSet::from_bits(upper),
    }
}

/// Whether something can be in class 0 and not in class 3, with one context slot and so many clause slots.
pub fn payroll_not_shared<'a>(clauses: usize, words: Option<usize>) -> Call<'a> {
    Call::Ask {
        held: ClassSet::single(0),
        denied: ClassSet::single(3),
        contexts: 1,
        clauses,
        words,
    }
}
