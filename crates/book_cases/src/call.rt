//! Calls as words.
use std::num::{ParseIntError, TryFromIntError};
use std::str::FromStr;
use terms::{Axiom, ClassSet};

/// A call on a book.
#[derive(Clone, Copy)]
pub enum Call {
    Add(Axiom),
    Amend(usize, Axiom),
    Strike(usize),
    AxiomAt(usize),
    NameLen(u8),
    NameByte(u8),
}

/// A word that is no call.
#[derive(Clone, Copy, Debug)]
pub struct NoCall;

impl From<ParseIntError> for NoCall {
    fn from(_error: ParseIntError) -> Self {
        NoCall
    }
}

impl From<TryFromIntError> for NoCall {
    fn from(_error: TryFromIntError) -> Self {
        NoCall
    }
}

/// The inclusion with these classes on the left and none on the right.
pub fn inclusion(bits: u64) -> Axiom {
    Axiom::Inclusion {
        lower: ClassSet::from_bits(bits),
        upper: ClassSet::empty(),
    }
}

/// The classes on the left of an inclusion.
// Each axiom of a case is an inclusion, so no case prints the 0 of the other forms.
pub fn bits(axiom: Axiom) -> u64 {
    match axiom {
        Axiom::Inclusion { lower, .. } => lower.bits(),
        _ => 0,
    }
}

impl FromStr for Call {
    type Err = NoCall;

    fn from_str(word: &str) -> Result<Call, NoCall> {
        let (name, rest) = word.split_once(':').ok_or(NoCall)?;
        let (number, axiom) = rest.split_once(':').unwrap_or((rest, "0"));
        let number = number.parse::<usize>()?;
        let axiom = axiom.parse::<u64>()?;
        match name {
            "add" => Ok(Call::Add(inclusion(number as u64))),
            "amend" => Ok(Call::Amend(number, inclusion(axiom))),
            "strike" => Ok(Call::Strike(number)),
            "axiom" => Ok(Call::AxiomAt(number)),
            "length" => Ok(Call::NameLen(u8::try_from(number)?)),
            "byte" => Ok(Call::NameByte(u8::try_from(number)?)),
            _ => Err(NoCall),
        }
    }
}
