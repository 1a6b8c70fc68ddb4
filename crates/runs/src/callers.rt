//! Runs in the hands of a caller who chooses each call after what it heard.
ghost use Rattle.std.specs.Prelude.{◌≡◌, min, [], length, take, drop};
ghost use Rattle.book.specs.Owned.{whole_of};
ghost use Rattle.runs.specs.declared.calls.Call.{Call as CallOf};
ghost use Rattle.runs.specs.Calls.{lent, ShownBy};
ghost use Rattle.runs.specs.Law.{Lawful};
ghost use Rattle.runs.specs.Tables.{slots, Rewritten, Left};

use crate::calls::{Call, Heard};
use crate::run_tables::RunTables;
use crate::serving::serve;
use book::Book;
use sources::Source;
use tables::{ClauseRecord, ContextRecord};

/// Lets a contract read a `C` as a call.
pub trait IsCall {
    /// The call that a value is.
    ghost call: { Self → CallOf };
}

impl<'a> IsCall for Call<'a> {
    ghost call = { λ c. c };
}

/// Whoever makes calls on a book; the calls are the type `Call<'a>`.
// `C` is a parameter, since a trait with a lifetime may not have a method over any source.
pub trait Caller<C: IsCall> {
    /// The next call. Anything may be written into the tables before it.
    fn call(
        &mut self,
        contexts: &mut [ContextRecord],
        clauses: &mut [ClauseRecord],
        model: &mut [u64],
    ) -> C;

    /// What was heard of it, with the model table as it is then.
    fn hear<S: Source>(&mut self, book: &Book<S>, call: C, heard: Heard, model: &[u64])
        requires { ShownBy (whole_of S.Source.meaning book.now) (C.IsCall.call call) heard model.now };
}

/// Makes a book over the source and serves the caller, as many calls as there is room to write down calls and what is heard.
pub fn converse<'a, S: Source + Drop, C: Caller<Call<'a>>>(
    source: S,
    caller: &mut C,
    calls: &mut [Call<'a>],
    heard: &mut [Heard],
    contexts: &mut [ContextRecord],
    clauses: &mut [ClauseRecord],
    model: &mut [u64],
) -> usize
    ensures made { result ≡ min (length calls.old) (length heard.old) }
    ensures rest { (drop result calls.new ≡ drop result calls.old) × (drop result heard.new ≡ drop result heard.old) }
    ensures law { Lawful (S.Source.meaning source) (lent contexts.old clauses.old model.old) [] (take result calls.new) (take result heard.new) }
    ensures tables { Left Rewritten (S.Source.meaning source) [] (slots contexts.old clauses.old model.old)
        (take result calls.new) (take result heard.new) (slots contexts.new clauses.new model.new) }
{
    let count = calls.len().min(heard.len());
    let mut book = Book::new(source);
    // Each turn writes both lists by number and lends the tables anew, since the caller has them in between.
    for i in 0..count {
        let call = caller.call(contexts, clauses, model);
        let mut tables = RunTables {
            contexts: &mut *contexts,
            clauses: &mut *clauses,
            model: &mut *model,
        };
        let answer = serve(&mut book, call, &mut tables);
        caller.hear(&book, call, answer, model);
        calls[i] = call;
        heard[i] = answer;
    }
    count
}
