//! Making a book, and changing its own axioms.
ghost use Rattle.std.specs.Prelude.{◌≡◌, []};
ghost use Rattle.terms.specs.Refusals.{told};
ghost use Rattle.book.specs.Books.{PlainAdd, PlainAmend, PlainStrike, Settles};
ghost use Rattle.book.specs.Owned.{own_of};

use crate::book::{Book, MOST_OWN};
use sources::Source;
use sources::source::MOST_AXIOMS;
use terms::{Axiom, Fault, Layer, Refusal};

/// Puts an axiom in the place of another.
fn rewrite(slot: &mut Axiom, axiom: Axiom)
    ensures { slot.new ≡ «axiom» }
{
    *slot = axiom;
}

// `over` compares the source before a call with the source after it, which no type can keep.
impl<S: Source> Book<S> {
    /// A book over the source, with no axioms of its own.
    pub fn new(source: S) -> Self
        ensures over { result.source ≡ source }
        ensures none { own_of result ≡ [] }
    {
        Book {
            source,
            own: [Axiom::default(); MOST_OWN],
            count: 0,
        }
    }

    /// Puts an axiom at the end of the book.
    pub fn add(&mut self, axiom: Axiom) -> Result<(), Fault>
        ensures plain { Settles (PlainAdd (S.Source.meaning self.old.source) (own_of self.old) «axiom») (told result) (own_of self.new) }
        ensures over { self.new.source ≡ self.old.source }
    {
        axiom.check(self.class_count(), self.role_count(), 0, Layer::Book)?;
        if self.count == MOST_OWN {
            return Err(Refusal::BookFull.at(0, Layer::Book));
        }
        if self.axiom_count() == MOST_AXIOMS {
            return Err(Refusal::ListFull.at(0, Layer::Book));
        }
        self.own[self.count] = axiom;
        self.count += 1;
        Ok(())
    }

    /// Rewrites an own axiom inside the book; every other stays.
    pub fn amend(&mut self, number: usize, axiom: Axiom) -> Result<(), Fault>
        ensures plain { Settles (PlainAmend (S.Source.meaning self.old.source) (own_of self.old) number «axiom») (told result) (own_of self.new) }
        ensures over { self.new.source ≡ self.old.source }
    {
        axiom.check(self.class_count(), self.role_count(), 0, Layer::Book)?;
        if number >= self.count {
            return Err(Refusal::NoOwnAxiom.at(0, Layer::Book));
        }
        rewrite(&mut self.own[number], axiom);
        Ok(())
    }

    /// Takes an own axiom out; the later ones move down by one.
    pub fn strike(&mut self, number: usize) -> Result<(), Fault>
        ensures plain { Settles (PlainStrike (own_of self.old) number) (told result) (own_of self.new) }
        ensures over { self.new.source ≡ self.old.source }
    {
        if number >= self.count {
            return Err(Refusal::NoOwnAxiom.at(0, Layer::Book));
        }
        self.own[number..self.count].rotate_left(1);
        self.count -= 1;
        Ok(())
    }
}
