//! The worlds tried on examples: model tables, entry tables, and the audit of both.
//!
//! The crate has tests alone; `showing` has what they share.
#![tactic(auto)]

#[cfg(test)]
mod agreement;
#[cfg(test)]
mod entries;
#[cfg(test)]
mod forms;
#[cfg(test)]
mod many_links;
#[cfg(test)]
mod models;
#[cfg(test)]
mod past_end;
#[cfg(test)]
mod reopening;
#[cfg(test)]
mod showing;
