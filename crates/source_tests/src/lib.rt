//! The layers of sources tried on examples: sets of classes, refusals, record tables, sheets, and finding a class by its name.
//!
//! The crate has tests alone; `writing` has what they share.
#![tactic(auto)]

#[cfg(test)]
mod answers;
#[cfg(test)]
mod faults;
#[cfg(test)]
mod lookup;
#[cfg(test)]
mod opening;
#[cfg(test)]
mod reopening;
#[cfg(test)]
mod sets;
#[cfg(test)]
mod tables;
#[cfg(test)]
mod writing;
