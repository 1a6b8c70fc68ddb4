//! Runs of calls on a new book.
ghost use Rattle.std.specs.Prelude.{◌≡◌, min, [], length, take, drop};
ghost use Rattle.runs.specs.Calls.{lent};
ghost use Rattle.runs.specs.Law.{Lawful, LastShown};
ghost use Rattle.runs.specs.Tables.{slots, Untouched, Left};

use crate::calls::{Call, Heard};
use crate::run_tables::RunTables;
use crate::serving::replay;
use book::Book;
use sources::Source;
use tables::{ClauseRecord, ContextRecord};

/// Makes a book over the source, makes the calls of the list on it one after the other, and writes down what is heard of each.
///
/// As many calls are made as there is room to write down what is heard; their number is told.
pub fn life<S: Source + Drop>(
    source: S,
    calls: &[Call<'_>],
    heard: &mut [Heard],
    contexts: &mut [ContextRecord],
    clauses: &mut [ClauseRecord],
    model: &mut [u64],
) -> usize
    ensures made { result ≡ min (length calls.now) (length heard.old) }
    ensures rest { drop result heard.new ≡ drop result heard.old }
    ensures law { Lawful (S.Source.meaning source) (lent contexts.old clauses.old model.old) [] (take result calls.now) (take result heard.new) }
    ensures tables { Left Untouched (S.Source.meaning source) [] (slots contexts.old clauses.old model.old)
        (take result calls.now) (take result heard.new) (slots contexts.new clauses.new model.new) }
    ensures shown { LastShown (S.Source.meaning source) [] (take result calls.now) (take result heard.new) model.new }
{
    let count = calls.len().min(heard.len());
    let mut book = Book::new(source);
    let mut tables = RunTables {
        contexts,
        clauses,
        model,
    };
    replay(&mut book, &calls[..count], heard, &mut tables);
    count
}
