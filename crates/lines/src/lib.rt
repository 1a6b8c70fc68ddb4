//! The two kinds of line that a listing prints, each made in a buffer that the caller lends.
//!
//! One says that a class is under another, by their names; the other tells a refusal. A call answers with the line's length and
//! promises every byte of the buffer: the line at its start, and behind it what stood there. The crate rests on `terms` and `sources`.
#![tactic(auto)]

mod pieces;
pub mod refusal;
pub mod under;
mod writer;

pub use pieces::MOST_BYTES;
pub use refusal::refusal_line;
pub use under::under_line;
