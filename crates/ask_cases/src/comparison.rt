//! What a call told and wrote, compared with the naive closure.
use crate::cases::Case;
use crate::naive::Naive;
use reasoner::Answer;
use sources::RecordTable;
use std::fmt;
use tables::{ClauseRecord, ContextRecord, Counts, RolePart};
use terms::{ClassSet, Fault, Layer, Refusal};
use worlds::ModelTable;
use worlds::audit::audit;
use worlds::world::World;

/// Each word of a model table before the call.
pub const BLANK_WORD: u64 = 0x5a5a_5a5a_5a5a_5a5a;

/// How a call and the naive closure differ.
#[derive(Clone, Copy, PartialEq, Eq, Debug)]
pub enum Difference {
    Verdict,
    Counts,
    CountsOfTables,
    RefusalDue,
    OtherRefusalDue,
    AnswerDue,
    TablesWritten,
    LaterSlotsWritten,
    TooManyMembers,
    Contexts,
    Clauses,
    Elements,
    TooManyElements,
    LaterWordsWritten,
    Model,
}

impl fmt::Display for Difference {
    fn fmt<W: fmt::Write>(&self, f: &mut fmt::Formatter<W>) -> fmt::Result {
        f.write_str(match self {
            Difference::Verdict => "the verdict differs",
            Difference::Counts => "the counts differ",
            Difference::CountsOfTables => "the counts are not those of the tables",
            Difference::RefusalDue => "a refusal is due",
            Difference::OtherRefusalDue => "another refusal is due",
            Difference::AnswerDue => "an answer is due",
            Difference::TablesWritten => "the tables are written",
            Difference::LaterSlotsWritten => "slots behind the leading ones are written",
            Difference::TooManyMembers => "too many for the naive closure",
            Difference::Contexts => "the contexts are not distinct members, the goal first",
            Difference::Clauses => "the clauses are not distinct members",
            Difference::Elements => "elements with no model, or a model with none",
            Difference::TooManyElements => "more elements than contexts",
            Difference::LaterWordsWritten => "words behind the rows are written",
            Difference::Model => "the rows are no model",
        })
    }
}

/// What the comparison came to: `ok`, or how they differ.
#[derive(Clone, Copy, PartialEq, Eq, Debug)]
pub struct Compared(pub Result<(), Difference>);

impl fmt::Display for Compared {
    fn fmt<W: fmt::Write>(&self, f: &mut fmt::Formatter<W>) -> fmt::Result {
        match self.0 {
            Ok(()) => f.write_str("ok"),
            Err(difference) => difference.fmt(f),
        }
    }
}

/// Each slot of a context table before the call: no member of a closure here.
pub fn blank_context() -> ContextRecord {
    ContextRecord {
        held: ClassSet::from_bits(u64::MAX),
        denied: ClassSet::from_bits(u64::MAX),
    }
}

/// Each slot of a clause table before the call: no member of a closure.
pub fn blank_clause() -> ClauseRecord {
    ClauseRecord {
        context: u16::MAX,
        classes: ClassSet::from_bits(u64::MAX),
        part: None,
    }
}

/// The two tables that a call is lent, or their used slots.
#[derive(Clone, Copy)]
pub struct Tables<'a> {
    pub contexts: &'a [ContextRecord],
    pub clauses: &'a [ClauseRecord],
}

/// The slots that are no longer as they were, which are to be the leading ones.
fn leading<R: PartialEq + Copy>(table: &[R], blank: R) -> Result<&[R], Difference> {
    let used = table
        .iter()
        .position(|record| *record == blank)
        .unwrap_or(table.len());
    let (leading, later) = table.split_at(used);
    if later.iter().all(|record| *record == blank) {
        Ok(leading)
    } else {
        Err(Difference::LaterSlotsWritten)
    }
}

/// Whether no two of the records are the same.
fn are_distinct<R: PartialEq>(records: &[R]) -> bool {
    records
        .iter()
        .enumerate()
        .all(|(i, record)| !records[..i].contains(record))
}

impl<'a> Tables<'a> {
    /// The used slots.
    fn used(self) -> Result<Tables<'a>, Difference> {
        Ok(Tables {
            contexts: leading(self.contexts, blank_context())?,
            clauses: leading(self.clauses, blank_clause())?,
        })
    }

    /// How many slots there are.
    fn counts(self) -> Counts {
        Counts {
            contexts: self.contexts.len(),
            clauses: self.clauses.len(),
        }
    }

    /// Whether the contexts are members, none of them twice, and the first is the goal.
    fn are_contexts(self, naive: &Naive) -> bool {
        self.contexts
            .iter()
            .all(|record| naive.contexts.contains(record))
            && are_distinct(self.contexts)
            && (self.contexts.is_empty() || self.contexts.first() == naive.contexts.first())
    }

    /// Where the naive closure has the context in a slot.
    fn context_there(self, naive: &Naive, slot: u16) -> Option<u16> {
        naive.context_slot(*self.contexts.get(usize::from(slot))?)
    }

    /// The clause as the naive closure has it, where it has the contexts that the clause cites.
    fn clause_there(self, naive: &Naive, clause: ClauseRecord) -> Option<ClauseRecord> {
        // A match: inside `map` a missing context could not leave the function by `?`.
        let part = match clause.part {
            Some(part) => Some(RolePart {
                role: part.role,
                context: self.context_there(naive, part.context)?,
            }),
            None => None,
        };
        Some(ClauseRecord {
            context: self.context_there(naive, clause.context)?,
            classes: clause.classes,
            part,
        })
    }

    /// Whether the clauses, which may cite any slot, are members, none of them twice; the contexts are members, none of them twice.
    fn are_clauses(self, naive: &Naive, clauses: &[ClauseRecord]) -> bool {
        are_distinct(clauses)
            && clauses.iter().all(|clause| {
                self.clause_there(naive, *clause)
                    .is_some_and(|clause| naive.has_clause(clause))
            })
    }
}

/// The counts that an answer tells.
pub fn counts(answer: Answer) -> Counts {
    match answer {
        Answer::Nothing { counts } | Answer::Something { counts, .. } => counts,
    }
}

/// The refusal that is due, if one is.
// A case and its closure are lent apart, here and below, since half of the checks read one of them alone.
fn due(case: &Case, naive: &Naive) -> Option<Refusal> {
    if !case.held.is_below(case.classes) || !case.denied.is_below(case.classes) {
        return Some(Refusal::PastEnd);
    }
    let row = ModelTable::row_words(case.roles);
    let too_short = case
        .words
        .is_some_and(|words| words < case.context_slots.wrapping_mul(row));
    if case.context_slots > 256 || case.clause_slots > 65535 || too_short {
        return Some(Refusal::TableSize);
    }
    if naive.contexts.len() > case.context_slots || naive.clauses.len() > case.clause_slots {
        return Some(Refusal::ClosureFull);
    }
    None
}

/// Whether an answer has the naive closure's verdict and counts, and the counts are those of the tables.
fn compare_answer(naive: &Naive, answer: Answer, used: Counts) -> Result<(), Difference> {
    let is_none = matches!(answer, Answer::Nothing { .. });
    if is_none != naive.is_impossible(0) {
        return Err(Difference::Verdict);
    }
    if counts(answer) != naive.counts() {
        return Err(Difference::Counts);
    }
    if counts(answer) != used {
        return Err(Difference::CountsOfTables);
    }
    Ok(())
}

/// Whether a refusal is the one that is due; but for a full closure nothing may be written then.
fn compare_refusal(fault: Fault, due: Refusal, used: Counts) -> Result<(), Difference> {
    if fault != due.at(0, Layer::Ask) {
        return Err(Difference::OtherRefusalDue);
    }
    if due != Refusal::ClosureFull && used != Counts::default() {
        return Err(Difference::TablesWritten);
    }
    Ok(())
}

/// Whether the used slots of the tables have members, each once, the goal first.
fn compare_members(naive: &Naive, tables: Tables, used: Tables) -> Result<(), Difference> {
    if naive.full {
        return Err(Difference::TooManyMembers);
    }
    if !used.are_contexts(naive) {
        return Err(Difference::Contexts);
    }
    if !tables.are_clauses(naive, used.clauses) {
        return Err(Difference::Clauses);
    }
    Ok(())
}

/// Whether what a call told and the tables after it are as the naive closure has it.
fn compare_tables(
    case: &Case,
    naive: &Naive,
    told: Result<Answer, Fault>,
    tables: Tables,
) -> Result<(), Difference> {
    let used = tables.used()?;
    match (told, due(case, naive)) {
        (Ok(answer), None) => compare_answer(naive, answer, used.counts())?,
        (Err(fault), Some(due)) => compare_refusal(fault, due, used.counts())?,
        (Ok(_), Some(_)) => return Err(Difference::RefusalDue),
        (Err(_), None) => return Err(Difference::AnswerDue),
    }
    compare_members(naive, tables, used)
}

/// Whether the first rows are a world that obeys the axioms and whose element 0 is in all held and no denied classes.
fn is_model(case: &Case, model: &[u64], size: u32) -> Result<bool, Fault> {
    let mut source = RecordTable::new();
    source.open(case.classes, case.roles, &case.axioms)?;
    let mut world = ModelTable::new();
    world.open(model, u32::from(case.roles), size)?;
    let classes = world.classes_of(0);
    Ok(
        audit(&source, &world).is_none()
            && case.held.is_subset(classes)
            && !case.denied.meets(classes),
    )
}

/// The rows that an answer says are written, with the most that there may be, where it is one that shows a world.
fn shown(told: Result<Answer, Fault>) -> Option<(usize, usize)> {
    match told {
        Ok(
            Answer::Something {
                counts,
                elements: Some(elements),
            },
        ) => Some((elements, counts.contexts)),
        _ => None,
    }
}

/// Whether the model table shows a world where one is due, and is else as it was.
fn compare_model(
    case: &Case,
    told: Result<Answer, Fault>,
    model: &[u64],
) -> Result<(), Difference> {
    let is_due = case.words.is_some() && matches!(told, Ok(Answer::Something { .. }));
    let shown = shown(told);
    if shown.is_some() != is_due {
        return Err(Difference::Elements);
    }
    let (size, most) = shown.unwrap_or((0, 0));
    if size > most || size > 256 {
        return Err(Difference::TooManyElements);
    }
    let written = size * ModelTable::row_words(case.roles);
    if model.iter().skip(written).any(|word| *word != BLANK_WORD) {
        return Err(Difference::LaterWordsWritten);
    }
    if is_due && !matches!(is_model(case, model, size as u32), Ok(true)) {
        return Err(Difference::Model);
    }
    Ok(())
}

/// Whether a call told and wrote what is due.
pub fn compare(
    case: &Case,
    naive: &Naive,
    told: Result<Answer, Fault>,
    tables: Tables,
    model: &[u64],
) -> Result<(), Difference> {
    compare_model(case, told, model)?;
    compare_tables(case, naive, told, tables)
}
