//! Asks on any source.
ghost use Rattle.std.specs.Prelude.{◌≡◌, ◌*◌, ◌≤◌, length};
ghost use Rattle.std.specs.List.{AllByRecursion};
ghost use Rattle.terms.specs.Sets.{Below};
ghost use Rattle.terms.specs.Axioms.{WellFormed};
ghost use Rattle.terms.specs.Refusals.{Answers, told, check, end};
ghost use Rattle.sources.specs.Meanings.{Meaning as MeaningOf};
ghost use Rattle.roles.specs.Reaching.{Shows};
ghost use Rattle.reasoner.specs.Asks.{in_ask, goal_of, FitsInto, admit_checks, ask_checks, NoTable, RowEach, Right, Unshown, Numbered, TablesAfter, ModelAfter};

use crate::answer::Answer;
use crate::loading::{blank, load};
use crate::settling::is_refuted;
use models::write_model;
use roles::Reach;
use saturation::saturate;
use sources::Source;
use sources::source::MOST_AXIOMS;
use tables::{ClauseRecord, ContextRecord};
use terms::{Axiom, ClassSet, Fault, Layer, Refusal};
use worlds::ModelTable;

/// A context table has at most this many slots.
pub const MOST_CONTEXTS: usize = 256;

/// A clause table has at most this many slots.
pub const MOST_CLAUSES: usize = 65_535;

// The two tables are lent as slices, and are filled and read in place: each call below passes them on, with the bound of their lengths in its contract.

/// Fills the tables with the closure of the goal; where it does not fit, says so.
fn fill(
    axioms: &[Axiom],
    reach: &Reach,
    contexts: &mut [ContextRecord],
    clauses: &mut [ClauseRecord],
    goal: ContextRecord,
) -> Result<Answer, Fault>
    requires formed { AllByRecursion (WellFormed 64 16) axioms.now }
    requires shows { Shows axioms.now reach.now.rows }
    requires few { length contexts.old ≤ 256 }
    requires low { Below 64 goal.held.bits × Below 64 goal.denied.bits }
    ensures gives { Answers (check 23 (FitsInto axioms.now (goal_of goal.held goal.denied) (length contexts.old) (length clauses.old)) end) 0 in_ask
        (λ a. Right axioms.now goal.held goal.denied a × Unshown a) (told result) }
    ensures after { TablesAfter axioms.now (goal_of goal.held goal.denied) contexts.old clauses.old contexts.new clauses.new (told result) }
{
    let counts = saturate(axioms, reach, contexts, clauses, goal).map_err(
        |_| Refusal::ClosureFull.at(0, Layer::Ask),
    )?;
    if is_refuted(&clauses[..counts.clauses]) {
        return Ok(Answer::Nothing { counts });
    }
    Ok(Answer::Something {
        counts,
        elements: None,
    })
}

/// Fills the tables as `fill` does, and where the answer is some writes a world into the first rows of the model table.
fn fill_with_model(
    axioms: &[Axiom],
    roles: u8,
    contexts: &mut [ContextRecord],
    clauses: &mut [ClauseRecord],
    model: &mut [u64],
    goal: ContextRecord,
) -> Result<Answer, Fault>
    requires formed { AllByRecursion (WellFormed 64 roles) axioms.now }
    requires few { length contexts.old ≤ 256 }
    requires low { Below 64 goal.held.bits × Below 64 goal.denied.bits }
    requires room { (roles ≤ 16) × RowEach roles (length contexts.old) (length model.old) }
    ensures gives { Answers (check 23 (FitsInto axioms.now (goal_of goal.held goal.denied) (length contexts.old) (length clauses.old)) end) 0 in_ask
        (λ a. Right axioms.now goal.held goal.denied a × Numbered a) (told result) }
    ensures after { TablesAfter axioms.now (goal_of goal.held goal.denied) contexts.old clauses.old contexts.new clauses.new (told result) }
    ensures shows { (m : MeaningOf) → m.roles ≡ roles → m.axioms ≡ axioms.now → AllByRecursion (WellFormed m.classes m.roles) m.axioms
        → Below m.classes goal.held.bits → Below m.classes goal.denied.bits → ModelAfter m goal.held goal.denied model.old model.new (told result) }
{
    let reach = Reach::of(axioms);
    match fill(axioms, &reach, contexts, clauses, goal)? {
        Answer::Nothing { counts } => Ok(Answer::Nothing { counts }),
        Answer::Something { counts, .. } => {
            let elements = write_model(model, contexts, clauses, counts, &reach, roles);
            Ok(Answer::Something {
                counts,
                elements: Some(elements),
            })
        }
    }
}

/// Checks the question and the sizes of the two tables, before anything of the source's list is read.
// The two sizes are numbers of slots, and not of slots used as `Counts` are.
fn admit<S: Source>(
    source: &S,
    goal: ContextRecord,
    contexts: usize,
    clauses: usize,
) -> Result<(), Fault>
    ensures { Answers (admit_checks (S.Source.meaning source.now).classes goal.held goal.denied contexts clauses NoTable) 0 in_ask (λ _. Unit {0}) (told result) }
{
    let classes = source.class_count();
    if !goal.held.is_below(classes) || !goal.denied.is_below(classes) {
        return Err(Layer::Ask.past_end());
    }
    if contexts > MOST_CONTEXTS || clauses > MOST_CLAUSES {
        return Err(Refusal::TableSize.at(0, Layer::Ask));
    }
    Ok(())
}

/// Asks whether some world that obeys the source's axioms has an element in all held and no denied classes.
///
/// The leading slots of the tables then hold the closure of the goal.
// A caller has two sets of classes; that both together are the goal's record is the reasoner's own affair.
pub fn ask<S: Source>(
    source: &S,
    held: ClassSet,
    denied: ClassSet,
    contexts: &mut [ContextRecord],
    clauses: &mut [ClauseRecord],
) -> Result<Answer, Fault>
    ensures gives { Answers (ask_checks (S.Source.meaning source.now) held denied (length contexts.old) (length clauses.old) NoTable) 0 in_ask
        (λ a. Right (S.Source.meaning source.now).axioms held denied a × Unshown a) (told result) }
    ensures after { TablesAfter (S.Source.meaning source.now).axioms (goal_of held denied) contexts.old clauses.old contexts.new clauses.new (told result) }
{
    let goal = ContextRecord { held, denied };
    admit(source, goal, contexts.len(), clauses.len())?;
    let mut slots = [blank(); MOST_AXIOMS];
    let axioms = load(source, &mut slots);
    fill(axioms, &Reach::of(axioms), contexts, clauses, goal)
}

/// As `ask`; where the answer is some, shows a world in the first rows of the model table, its element 0 such an element.
pub fn ask_model<S: Source>(
    source: &S,
    held: ClassSet,
    denied: ClassSet,
    contexts: &mut [ContextRecord],
    clauses: &mut [ClauseRecord],
    model: &mut [u64],
) -> Result<Answer, Fault>
    ensures gives { Answers (ask_checks (S.Source.meaning source.now) held denied (length contexts.old) (length clauses.old)
        (RowEach (S.Source.meaning source.now).roles (length contexts.old) (length model.old))) 0 in_ask
        (λ a. Right (S.Source.meaning source.now).axioms held denied a × Numbered a) (told result) }
    ensures after { TablesAfter (S.Source.meaning source.now).axioms (goal_of held denied) contexts.old clauses.old contexts.new clauses.new (told result) }
    ensures shows { ModelAfter (S.Source.meaning source.now) held denied model.old model.new (told result) }
{
    let goal = ContextRecord { held, denied };
    let roles = source.role_count();
    let width = ModelTable::row_words(roles);
    admit(source, goal, contexts.len(), clauses.len())?;
    if contexts.len() * width > model.len() {
        return Err(Refusal::TableSize.at(0, Layer::Ask));
    }
    let mut slots = [blank(); MOST_AXIOMS];
    let axioms = load(source, &mut slots);
    fill_with_model(axioms, roles, contexts, clauses, model, goal)
}
