//! The top call.

ghost use Rattle.std.specs.Prelude.{◌≡◌, ◌≢◌, ◌⊎◌, ◌∷◌, ◌++◌, [], Some, IfErr, IfOk};
ghost use Rattle.run_model.specs.Endings.{NamesFile, ending, no_memory};
ghost use Rattle.run_model.specs.Jobs.{task_of};
ghost use Rattle.run_model.specs.Requests.{NamesFiles, ask_files, asked, build, change_map, fold_files, replay_script};
ghost use Rattle.run_model.specs.Runs.{CausedBy, EndsSo, EndsWithCode, IsLinePut, PutsLine, ReceivesNothing, Run, StepsFor, change};
ghost use Rattle.obf_run.specs.Finishing.{IsPut};

use crate::asking::question_answer;
use crate::changing::changed_file;
use crate::folding::folded_file;
use crate::images::MOST_FILES;
use crate::jobs::{built_file, check_answer, dump_answer, nodes_answer};
use crate::packing::{finish, finish_file, put_answer};
use crate::replaying::played_answer;
use live_model::{NoMemory, Query, Steps, Text};
use outside::{Files, Gate, Sink, put_all};
use run_model::{Arguments, NO_MEMORY, Name, Period, Request, Status, fixed_line, read_request};
use stamp_core::Stamp;
use std::alloc::Global;
use std::sync::Wait;
use std::sync::ledger::Ledger;
use std::thread::Threads;

/// Runs the program on its arguments, and answers its exit code: that of the run of the words, or of the status 2 where an
/// argument is no text, or of 6 where there was no memory for a copy of them. It may wait.
pub fn run_arguments<R: Wait + Threads + Sync, F: Files, K: Sink, E: Sink, G: Gate, L: Ledger>(
    rt: &R,
    alloc: Global,
    given: &Arguments,
    files: &mut F,
    out: &mut K,
    err: &mut E,
    gate: &G,
    steps: &mut Steps<L>,
) -> u8
    ensures { EndsWithCode result given.now (record {
      files = change (F.state files.old) (F.state files.new);
      out = change (K.state out.old) (K.state out.new);
      err = change (E.state err.old) (E.state err.new);
      steps = change steps.old steps.new;
    }) }
{
    match given {
        Arguments::Words(words) => {
            let words = words.as_slice();
            run(rt, alloc, words, files, out, err, gate, steps).code()
        }
        Arguments::NotText => report(alloc, Status::BadWords, err).code(),
        Arguments::NoMemory => report(alloc, Status::NoMemory, err).code(),
    }
}

/// Runs the program on its words: reads files, writes one where the words ask for it, puts the answer to `out`, and after any
/// status but `Ok` puts the line of the status to `err`. It may wait.
pub fn run<'a, R: Wait + Threads + Sync, F: Files, K: Sink, E: Sink, G: Gate, L: Ledger>(
    rt: &R,
    alloc: Global,
    words: &'a [Text],
    files: &mut F,
    out: &mut K,
    err: &mut E,
    gate: &G,
    steps: &mut Steps<L>,
) -> Status<'a>
    ensures { EndsSo (ending result) words.now (record {
      files = change (F.state files.old) (F.state files.new);
      out = change (K.state out.old) (K.state out.new);
      err = change (E.state err.old) (E.state err.new);
      steps = change steps.old steps.new;
    }) }
{
    let _ = rt;
    let _ = gate;
    run_plain(alloc, words, files, out, err, steps)
}

/// `run` for the words that need no thread: it returns.
pub fn run_plain<'a, F: Files, K: Sink, E: Sink, L: Ledger>(
    alloc: Global,
    words: &'a [Text],
    files: &mut F,
    out: &mut K,
    err: &mut E,
    steps: &mut Steps<L>,
) -> Status<'a>
    ensures { EndsSo (ending result) words.now (record {
      files = change (F.state files.old) (F.state files.new);
      out = change (K.state out.old) (K.state out.new);
      err = change (E.state err.old) (E.state err.new);
      steps = change steps.old steps.new;
    }) }
{
    match read_request(alloc, words) {
        Ok(Some(request)) => {
            let status = answer_request(alloc, request, files, out, steps);
            report(alloc, status, err)
        }
        Ok(None) => report(alloc, Status::BadWords, err),
        Err(NoMemory) => report(alloc, Status::NoMemory, err),
    }
}

/// Does what is asked for.
fn answer_request<'a, F: Files, K: Sink, L: Ledger>(
    alloc: Global,
    request: Request<'a>,
    files: &mut F,
    out: &mut K,
    steps: &mut Steps<L>,
) -> Status<'a>
    requires named { NamesFiles request }
    ensures caused { CausedBy (ending result) (change (F.state files.old) (F.state files.new)) (change (K.state out.old) (K.state out.new)) (task_of (asked request.entry)) }
    ensures steps { StepsFor (Some (asked request.entry)) (change (F.state files.old) (F.state files.new)) (change steps.old steps.new) }
{
    match request {
        Request::Nodes { rect, base } => {
            print(nodes_answer(alloc, files, rect, Name::Given(base)), out)
        }
        Request::Dump { base } => print(dump_answer(alloc, files, Name::Given(base)), out),
        Request::Build {
            rules,
            base,
            output,
        } => build(alloc, rules, base, output, files, out, steps),
        Request::Change {
            rules,
            base,
            hour,
            output,
            earlier,
            last,
        } => change(
            alloc, rules, base, hour, output, earlier, last, files, out, steps,
        ),
        Request::Fold {
            period,
            output,
            files: names,
        } => fold(alloc, period, output, names, files, out),
        Request::Ask {
            query,
            files: names,
        } => ask(alloc, &query, names, files, out, steps),
        Request::Check { file } => print(check_answer(alloc, files, Name::Given(file)), out),
        Request::Replay {
            rules,
            base,
            script,
        } => replay(alloc, rules, base, script, files, out),
    }
}

/// Puts an answer, where there is one.
fn print<'a, K: Sink>(answer: Result<Vec<u8>, Status<'a>>, out: &mut K) -> Status<'a>
    ensures put { IfOk answer.entry (λ answer. IsPut (ending result) (change (K.state out.old) (K.state out.new)) answer.items) }
    ensures not_put { IfErr answer.entry (λ status. (ending result ≡ ending status) × ReceivesNothing (change (K.state out.old) (K.state out.new))) }
{
    match answer {
        Ok(answer) => put_answer(&answer, out),
        Err(status) => status,
    }
}

/// Builds a map file, writes it, and puts its line.
fn build<'a, F: Files, K: Sink, L: Ledger>(
    alloc: Global,
    rules: &'a str,
    base: &'a str,
    output: &'a str,
    files: &mut F,
    out: &mut K,
    steps: &mut Steps<L>,
) -> Status<'a>
    ensures { CausedBy (ending result) (change (F.state files.old) (F.state files.new)) (change (K.state out.old) (K.state out.new)) (task_of (build rules.now base.now output.now)) }
{
    match built_file(alloc, files, Name::Given(rules), Name::Given(base), steps) {
        Ok(built) => finish(files, Name::Given(output), &built, out),
        Err(status) => status,
    }
}

/// Makes the map file of an hour of the changes of a base, writes it, and puts its line.
fn change<'a, F: Files, K: Sink, L: Ledger>(
    alloc: Global,
    rules: &'a str,
    base: &'a str,
    hour: Stamp,
    output: &'a str,
    earlier: &'a [Text],
    last: &'a str,
    files: &mut F,
    out: &mut K,
    steps: &mut Steps<L>,
) -> Status<'a>
    ensures { CausedBy (ending result) (change (F.state files.old) (F.state files.new)) (change (K.state out.old) (K.state out.new)) (task_of (change_map rules.now base.now hour output.now (earlier.now ++ last.now ∷ []))) }
{
    match changed_file(
        alloc,
        files,
        Name::Given(rules),
        Name::Given(base),
        hour,
        earlier,
        Name::Given(last),
        steps,
    ) {
        Ok(built) => finish(files, Name::Given(output), &built, out),
        Err(status) => status,
    }
}

/// Makes one map file of several, writes it, and puts its line.
fn fold<'a, F: Files, K: Sink>(
    alloc: Global,
    period: Period,
    output: &'a str,
    names: &'a [Text],
    files: &mut F,
    out: &mut K,
) -> Status<'a>
    requires some { names.now ≢ [] }
    ensures { CausedBy (ending result) (change (F.state files.old) (F.state files.new)) (change (K.state out.old) (K.state out.new)) (task_of (fold_files period output.now names.now)) }
{
    if names.len() > MOST_FILES {
        return Status::TooManyFiles;
    }
    match folded_file(alloc, files, period, names) {
        Ok(folded) => finish_file(
            files,
            Name::Given(output),
            folded.image.bytes(),
            &folded.line,
            out,
        ),
        Err(status) => status,
    }
}

/// Answers a question over map files.
fn ask<'a, F: Files, K: Sink, L: Ledger>(
    alloc: Global,
    query: &Query,
    names: &'a [Text],
    files: &mut F,
    out: &mut K,
    steps: &mut Steps<L>,
) -> Status<'a>
    ensures caused { CausedBy (ending result) (change (F.state files.old) (F.state files.new)) (change (K.state out.old) (K.state out.new)) (task_of (ask_files query.now names.now)) }
    ensures steps { StepsFor (Some (ask_files query.now names.now)) (change (F.state files.old) (F.state files.new)) (change steps.old steps.new) }
{
    if names.len() > MOST_FILES {
        return Status::TooManyFiles;
    }
    print(question_answer(alloc, files, query, names, steps), out)
}

/// Plays a script over a base, and puts what is printed of it.
fn replay<'a, F: Files, K: Sink>(
    alloc: Global,
    rules: &'a str,
    base: &'a str,
    script: &'a str,
    files: &mut F,
    out: &mut K,
) -> Status<'a>
    ensures { CausedBy (ending result) (change (F.state files.old) (F.state files.new)) (change (K.state out.old) (K.state out.new)) (task_of (replay_script rules.now base.now script.now)) }
{
    let rules = Name::Given(rules);
    let base = Name::Given(base);
    let script = Name::Given(script);
    print(played_answer(alloc, files, rules, base, script), out)
}

/// Puts the line of the status. Where the line names a file and memory for it is refused, the status becomes `NoMemory`, whose
/// line takes none.
fn report<'a, E: Sink>(alloc: Global, status: Status<'a>, err: &mut E) -> Status<'a>
    ensures status { (ending result ≡ ending status.entry) ⊎ ((ending result ≡ no_memory) × NamesFile (ending status.entry)) }
    ensures told { PutsLine (ending result) (change (E.state err.old) (E.state err.new)) }
{
    if let Some(line) = fixed_line(&status) {
        tell(err, line);
        return status;
    }
    match status.to_string(alloc) {
        Ok(line) => {
            tell(err, line.as_str());
            status
        }
        Err(_) => {
            tell(err, NO_MEMORY);
            Status::NoMemory
        }
    }
}

/// Puts a line, as far as the sink takes it.
fn tell<E: Sink>(err: &mut E, line: &str)
    ensures { IsLinePut line.now (change (E.state err.old) (E.state err.new)) }
{
    let _ = put_all(err, line.as_bytes());
}
