//! Sheets of axioms: bytes that a program opens, and the source of axioms that they make.
//!
//! Opening tells exactly what the bytes are the writing of, or the first check that fails, and a refusal changes nothing.
//! The crate rests on `terms`, `sources` and the kit's `arrayvec`.
#![tactic(auto)]

mod contents;
mod field;
mod item;
mod name;
mod opening;
mod reading;
mod statement;
mod tag;

pub use contents::Sheet;
