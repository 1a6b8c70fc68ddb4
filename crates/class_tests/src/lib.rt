//! Classification tried on examples.
//!
//! The crate has tests alone.
#![tactic(auto)]

#[cfg(test)]
mod rows;
