//! Runs of calls on a book tried on examples.
//!
//! The crate has tests alone; `sharing` has what they share.
#![tactic(auto)]

#[cfg(test)]
mod caller;
#[cfg(test)]
mod list;
#[cfg(test)]
mod sharing;
