//! The reasoner: whether some world has an element in all held and no denied classes.
//!
//! `ask` saturates two lent tables with the closure of the goal and answers none or some, with the closure's counts; `ask_model` also shows a
//! world in a lent model table. `specs/Asks.antt` has the whole promise. The crate rests on `saturation` and `models`; docs/asks.md tells it in plain words.
#![tactic(auto)]

ghost use Rattle.reasoner.specs.Asks.{OneAnswer};

pub mod answer;
pub mod asking;
mod loading;
mod settling;

pub use answer::Answer;
pub use asking::{ask, ask_model};

/// What an ask tells is settled by the axioms, the question and the tables' sizes, all but the number of elements.
pub fn one_answer()
    ensures { OneAnswer }
{}
