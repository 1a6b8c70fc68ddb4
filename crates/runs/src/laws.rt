//! What holds of all runs.
ghost use Rattle.runs.specs.Law.{OneRun, Joined};

/// The plain book leaves no answer open, but for the number of elements that an ask with a model table tells.
pub fn one_run()
    ensures { OneRun }
{}

/// Runs can be put end to end.
pub fn joined()
    ensures { Joined }
{}
