//! What a book holds.
ghost use Rattle.std.specs.Prelude.{◌≡◌, ◌≤◌, length, take};
ghost use Rattle.sources.specs.Meanings.{Limits};
ghost use Rattle.sources.specs.Limiting.{limits_prop};
ghost use Rattle.book.specs.Books.{book_meaning};

use sources::Source;
use terms::Axiom;

pub mod changes;
pub mod reading;

/// A book has at most this many axioms of its own.
pub const MOST_OWN: usize = 64;

/// A book over a source: at most 64 own axioms, which stand after those of the source.
///
/// The whole list keeps the limits of a source.
#[derive(Drop)]
pub struct Book<S: Source> {
    source: S,
    // The own axioms stand in one fixed array with a count, since one of them is lent as a mutable element and there is no heap.
    own: [Axiom; MOST_OWN],
    count: usize,
    ghost few: { count ≤ 64 },
    ghost whole: { length own ≡ 64 },
    ghost limits: { Limits (book_meaning (S.Source.meaning source) (take count own)) } by { limits_prop _ },
}
