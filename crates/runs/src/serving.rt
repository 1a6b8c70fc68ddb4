//! One call.
ghost use Rattle.std.specs.Prelude.{◌≡◌, ◌≤◌, length, take, drop};
ghost use Rattle.terms.specs.Refusals.{Answers, told};
ghost use Rattle.worlds.specs.Models.{model_world, model_checks};
ghost use Rattle.worlds.specs.Entries.{entry_world, entry_checks};
ghost use Rattle.worlds.specs.Audits.{in_world, Audited};
ghost use Rattle.book.specs.Owned.{own_of, whole_of};
ghost use Rattle.runs.specs.Calls.{PlainAsk, Answered, Run};
ghost use Rattle.runs.specs.Tables.{room_of, slots_of, AskLeaves, Leaves, SameTables, Untouched, Left};

use crate::calls::{Call, Heard};
use crate::run_tables::RunTables;
use book::Book;
use reasoner::{Answer, ask, ask_model};
use sources::Source;
use terms::{ClassSet, Fault};
use worlds::audit::audit;
use worlds::{Breach, EntryTable, Link, ModelTable};

/// Audits the world that a model table shows.
fn audit_model<S: Source>(
    source: &S,
    words: &[u64],
    roles: u32,
    size: u32,
) -> Result<Option<Breach>, Fault>
    ensures { Answers (model_checks words.now roles size) 0 in_world (Audited (S.Source.meaning source.now).axioms (model_world words.now roles size)) (told result) }
{
    let mut world = ModelTable::new();
    world.open(words, roles, size)?;
    Ok(audit(source, &world))
}

/// Audits the world of a store's entries.
fn audit_entries<'a, S: Source>(
    source: &S,
    classes: &'a [u64],
    links: &'a [Link],
) -> Result<Option<Breach>, Fault>
    ensures { Answers (entry_checks classes.now links.now) 0 in_world (Audited (S.Source.meaning source.now).axioms (entry_world classes.now links.now)) (told result) }
{
    let mut world = EntryTable::new();
    world.open(classes, links)?;
    Ok(audit(source, &world))
}

/// Asks, lending so many slots of each table and, where `words` is there, words of the model table.
// What an ask brings is named here and in its call alone, and a struct of it would name each part twice more.
fn ask_with<S: Source>(
    source: &S,
    held: ClassSet,
    denied: ClassSet,
    context_slots: usize,
    clause_slots: usize,
    words: Option<usize>,
    tables: &mut RunTables<'_>,
) -> Result<Answer, Fault>
    ensures plain { PlainAsk (S.Source.meaning source.now) (room_of tables.old) held denied context_slots clause_slots words (told result) }
    ensures tables { AskLeaves (S.Source.meaning source.now) held denied context_slots clause_slots words (told result) (slots_of tables.old) (slots_of tables.new) }
    ensures same { SameTables tables.old tables.new }
{
    let context_slots = context_slots.min(tables.contexts.len());
    let clause_slots = clause_slots.min(tables.clauses.len());
    let contexts = &mut tables.contexts[..context_slots];
    let clauses = &mut tables.clauses[..clause_slots];
    match words {
        None => ask(source, held, denied, contexts, clauses),
        Some(words) => {
            let words = words.min(tables.model.len());
            ask_model(
                source,
                held,
                denied,
                contexts,
                clauses,
                &mut tables.model[..words],
            )
        }
    }
}

/// Makes one call on the book.
pub fn serve<S: Source>(book: &mut Book<S>, call: Call<'_>, tables: &mut RunTables<'_>) -> Heard
    ensures plain { Answered (S.Source.meaning book.old.source) (room_of tables.old) (own_of book.old) call.entry result (own_of book.new) }
    ensures tables { Leaves (whole_of S.Source.meaning book.old) call.entry result (slots_of tables.old) (slots_of tables.new) }
    ensures same { SameTables tables.old tables.new }
    ensures over { book.new.source ≡ book.old.source }
{
    match call {
        Call::Strike { number } => Heard::Changed {
            told: book.strike(number),
        },
        Call::Add { axiom } => Heard::Changed {
            told: book.add(axiom),
        },
        Call::Amend { number, axiom } => Heard::Changed {
            told: book.amend(number, axiom),
        },
        Call::Ask {
            held,
            denied,
            contexts,
            clauses,
            words,
        } => Heard::Asked {
            told: ask_with(book, held, denied, contexts, clauses, words, tables),
        },
        Call::AuditModel { words, roles, size } => Heard::Audited {
            told: audit_model(book, words, roles, size),
        },
        Call::AuditEntries { classes, links } => Heard::Audited {
            told: audit_entries(book, classes, links),
        },
    }
}

/// The calls of a list, one after the other, on a book as it stands.
pub fn replay<S: Source>(
    book: &mut Book<S>,
    calls: &[Call<'_>],
    heard: &mut [Heard],
    tables: &mut RunTables<'_>,
)
    requires { length calls.now ≤ length heard.old }
    ensures run { Run (S.Source.meaning book.old.source) (room_of tables.old) (own_of book.old)
        calls.now (take (length calls.now) heard.new) (own_of book.new) }
    ensures rest { drop (length calls.now) heard.new ≡ drop (length calls.now) heard.old }
    ensures tables { Left Untouched (S.Source.meaning book.old.source) (own_of book.old) (slots_of tables.old)
        calls.now (take (length calls.now) heard.new) (slots_of tables.new) }
    ensures same { SameTables tables.old tables.new }
    ensures over { book.new.source ≡ book.old.source }
{
    // What is heard is written by number, since a proof knows only the length of a slice that a `zip` with `iter_mut` wrote.
    for (i, call) in calls.iter().enumerate() {
        heard[i] = serve(book, *call, tables);
    }
}
