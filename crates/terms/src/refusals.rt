//! Refusals: what is wrong, where, and which layer found it.
ghost use Rattle.std.specs.Prelude.{◌≡◌, Some};
ghost use Rattle.terms.specs.declared.refusals.Refusal.{Refusal as RefusalOf};
ghost use Rattle.terms.specs.declared.refusals.Refusal.TheVariants.{PastEnd};
ghost use Rattle.terms.specs.Refusals.{number, written};
ghost use Rattle.terms.specs.Numbers.{Numbered};

use std::fmt;

/// Why a call refuses. Each kind has its number, by which helpdesks know it.
#[derive(Clone, Copy, Debug, PartialEq, Eq)]
pub enum Refusal {
    /// The sheet has more than 60,000 bytes.
    SheetTooLong = 1,
    /// A field is cut short, perhaps within its three leading bytes.
    CutShort = 2,
    /// A field has no known tag.
    UnknownTag = 3,
    /// A field has a length that its tag does not allow.
    WrongLength = 4,
    /// A name has a byte outside 33 to 126.
    NameByte = 5,
    /// A class has the name of an earlier class, or a role that of an earlier role.
    NameRepeated = 6,
    /// An axiom speaks of a class or a role that is not declared by then.
    Undeclared = 7,
    /// An inclusion has more than three classes on the left.
    TooWide = 8,
    /// A 65th class, a 17th role or a 1,025th axiom.
    TooMany = 9,
    /// A number is past the end, or a question speaks of a class that is not there.
    PastEnd = 10,
    /// A table has the wrong size.
    TableSize = 11,
    /// A world has no elements, too many, or too many links.
    WorldSize = 12,
    /// A link has an absent end or a role from 16 up.
    BadLink = 13,
    /// The book has 64 own axioms.
    BookFull = 20,
    /// The book has no own axiom of that number.
    NoOwnAxiom = 21,
    /// The book's list has 1,024 axioms.
    ListFull = 22,
    /// The closure has more contexts or more clauses than slots.
    ClosureFull = 23,
}

/// The part of the engine whose check failed.
#[derive(Clone, Copy, PartialEq, Eq, Debug)]
pub enum Layer {
    Sheet,
    RecordTable,
    Book,
    Ask,
    Classify,
    World,
    Line,
}

/// A refusal with its place and its layer.
#[derive(Clone, Copy, PartialEq, Eq, Debug)]
pub struct Fault {
    pub kind: Refusal,
    pub place: usize,
    pub layer: Layer,
}

/// A number that no refusal has.
#[derive(Clone, Copy, PartialEq, Eq, Debug)]
pub struct UnknownNumber(pub u8);

impl Refusal {
    /// The number of the kind.
    // A method and no `From`: helpdesks say the number.
    #[tactic(auto, using(crate::proofs::Numbers::same_number))]
    pub fn number(self) -> u8
        ensures value { result ≡ number self }
        ensures own { (kind : RefusalOf) → number kind ≡ result → kind ≡ self }
    {
        self as u8
    }

    /// A refusal of this kind at a place of a layer.
    pub fn at(self, place: usize, layer: Layer) -> Fault
        ensures { result ≡ record { kind = self; place = place; layer = layer } }
    {
        Fault {
            kind: self,
            place,
            layer,
        }
    }
}

impl Layer {
    /// The refusal of a number that is past the end, at place 0.
    pub fn past_end(self) -> Fault
        ensures { result ≡ record { kind = PastEnd; place = 0; layer = self } }
    {
        Refusal::PastEnd.at(0, self)
    }
}

impl TryFrom<u8> for Refusal {
    type Error = UnknownNumber;

    ghost try_from_gives = { Numbered };

    fn try_from(number: u8) -> Result<Self, UnknownNumber> {
        match number {
            1 => Ok(Refusal::SheetTooLong),
            2 => Ok(Refusal::CutShort),
            3 => Ok(Refusal::UnknownTag),
            4 => Ok(Refusal::WrongLength),
            5 => Ok(Refusal::NameByte),
            6 => Ok(Refusal::NameRepeated),
            7 => Ok(Refusal::Undeclared),
            8 => Ok(Refusal::TooWide),
            9 => Ok(Refusal::TooMany),
            10 => Ok(Refusal::PastEnd),
            11 => Ok(Refusal::TableSize),
            12 => Ok(Refusal::WorldSize),
            13 => Ok(Refusal::BadLink),
            20 => Ok(Refusal::BookFull),
            21 => Ok(Refusal::NoOwnAxiom),
            22 => Ok(Refusal::ListFull),
            23 => Ok(Refusal::ClosureFull),
            _ => Err(UnknownNumber(number)),
        }
    }
}

impl fmt::Display for Fault {
    ghost output = { λ f. Some (written f) };

    fn fmt<W: fmt::Write>(&self, f: &mut fmt::Formatter<W>) -> fmt::Result {
        let number = self.kind.number();
        let place = self.place;
        write!(f, "refused {number} at {place}")
    }
}
