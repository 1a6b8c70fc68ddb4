//! A book as a source of axioms.
ghost use Rattle.std.specs.Prelude.{◌≡◌};
ghost use Rattle.book.specs.Books.{in_book};
ghost use Rattle.book.specs.Owned.{own_of, whole_of};

use crate::book::Book;
use sources::Source;
use terms::{Axiom, Fault, Layer};

impl<S: Source> Book<S> {
    /// The book's own axioms, in order.
    pub fn own_axioms(&self) -> &[Axiom]
        ensures { result.now ≡ own_of self.now }
    {
        &self.own[..self.count]
    }
}

impl<S: Source> Source for Book<S> {
    ghost meaning = { whole_of S.Source.meaning };

    ghost layer = { in_book };

    ghost limits = { λ b. b.limits };

    fn class_count(&self) -> u8 {
        self.source.class_count()
    }

    fn role_count(&self) -> u8 {
        self.source.role_count()
    }

    fn axiom_count(&self) -> usize {
        self.source.axiom_count() + self.own_axioms().len()
    }

    fn axiom_at(&self, number: usize) -> Result<Axiom, Fault> {
        let below = self.source.axiom_count();
        if number < below {
            self.source.axiom_at(number)
        } else {
            let own = self.own_axioms().get(number - below).copied();
            own.ok_or(Layer::Book.past_end())
        }
    }

    fn name_len(&self, class: u8) -> Result<usize, Fault> {
        if class < self.class_count() {
            self.source.name_len(class)
        } else {
            Err(Layer::Book.past_end())
        }
    }

    fn name_byte(&self, class: u8, index: usize) -> Result<u8, Fault> {
        if index < self.name_len(class)? {
            self.source.name_byte(class, index)
        } else {
            Err(Layer::Book.past_end())
        }
    }
}
