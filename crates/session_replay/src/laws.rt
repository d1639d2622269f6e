//! Laws of the definitions, for the session of a script. Each function does nothing; its clause is the law.
ghost use Rattle.session_replay.specs.Runs.{in_order};
ghost use Rattle.session_replay.specs.Files.{file_of, IsFileOf};
ghost use Rattle.session_replay.specs.Laws.{IsInOrder, RunsAreNamed, OneVerdict, HoldsForRuns};

use session_script::Script;

/// The comment lines of the file in the order of the script's lines name its history, and this is a run of the session.
pub fn file_names_run(script: &Script)
    ensures { IsFileOf script.now (file_of script.now (in_order script.now)) }
{
    let _clients = script.clients();
}

/// The history in the order of the script's lines is the one run whose calls stand in that order. Of at most one client it is
/// the only run.
pub fn one_run_in_order(script: &Script)
    ensures { IsInOrder script.now }
{
    let _clients = script.clients();
}

/// In whichever order the clients made their calls, the comment lines of the file name the history that was made.
pub fn runs_are_named(script: &Script)
    ensures { RunsAreNamed script.now }
{
    let _clients = script.clients();
}

/// A file has at most one verdict.
pub fn one_verdict(script: &Script)
    ensures { OneVerdict script.now }
{
    let _clients = script.clients();
}

/// `Holds` is the verdict exactly of the files of runs of the script.
pub fn holds_for_runs(script: &Script)
    ensures { HoldsForRuns script.now }
{
    let _clients = script.clients();
}
