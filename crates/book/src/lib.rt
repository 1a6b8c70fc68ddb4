//! The book: axioms of the caller's own laid over any source, and itself a source.
//!
//! `specs/Books.antt` has the plain book, a list of own axioms and nothing else; every change of a book is answered as the plain book answers it.
//! The crate rests on `terms` and `sources`; docs/book.md tells it in plain words.
#![tactic(auto)]

mod book;

pub use book::{Book, MOST_OWN};
