//! The words that the program takes.

ghost use Rattle.std.specs.Prelude.{◌≡◌, ◌⊎◌, ◌∷◌, [], Some, None, IfErr, IfOk, IfSome, MatchOption};
ghost use Rattle.live_model.specs.declared.levels.Level.TheVariants.{Day as DayLevel, Month as MonthLevel};
ghost use Rattle.run_model.specs.declared.request.Verb.TheVariants.{Ask, Nodes};
ghost use Rattle.run_model.specs.Requests.{BeginsQuestion, NamesFiles, asked, asked_by, asked_change, asked_fold, asked_query, asked_with, level_of, period_of, verb_of};

use hour_words::read_hour;
use live_model::{Level, Mem, NoMemory, Query, Rect, Text};
use query_text::{QueryError, read_query};
use stamp_core::Stamp;
use std::alloc::Global;

/// The first word.
#[derive(Clone, Copy, PartialEq, Eq, Debug)]
pub enum Verb {
    Nodes,
    Dump,
    Build,
    Change,
    Fold,
    Ask,
    Check,
    Replay,
}

/// What a map file in place of others may cover.
#[derive(Clone, Copy, PartialEq, Eq, Debug)]
pub enum Period {
    Day,
    Month,
}

impl Period {
    /// The level of its files.
    pub fn level(self) -> Level
        ensures level { result ≡ level_of self }
        ensures above { (result ≡ DayLevel) ⊎ (result ≡ MonthLevel) }
    {
        match self {
            Period::Day => Level::Day,
            Period::Month => Level::Month,
        }
    }
}

/// What is asked for. Files are named as they were given.
#[derive(Drop)]
pub enum Request<'a> {
    /// The located nodes of the base in the rectangle.
    Nodes {
        rect: Rect,
        base: &'a str,
    },
    /// All objects of the base.
    Dump {
        base: &'a str,
    },
    /// A map file of the base under the rules, to be written.
    Build {
        rules: &'a str,
        base: &'a str,
        output: &'a str,
    },
    /// A map file of one hour, to be written: the overlay of the last text over the base that the earlier ones changed.
    Change {
        rules: &'a str,
        base: &'a str,
        hour: Stamp,
        output: &'a str,
        earlier: &'a [Text],
        last: &'a str,
    },
    /// One map file of a day or a month, to be written, in place of these map files.
    Fold {
        period: Period,
        output: &'a str,
        files: &'a [Text],
    },
    /// The rows of a question over map files.
    Ask {
        query: Query,
        files: &'a [Text],
    },
    /// Whether the file is a map file.
    Check {
        file: &'a str,
    },
    /// What a script does over the base under the rules when one thread plays it.
    Replay {
        rules: &'a str,
        base: &'a str,
        script: &'a str,
    },
}

/// What the words ask for. `None` exactly where they are none of `nodes RECT BASE`, `dump BASE`, `build RULES BASE OUT`,
/// `change RULES BASE STAMP OUT CHANGE ..`, `fold LEVEL OUT FILE ..`, `ask QUERY FILE ..`, `check FILE` and `replay RULES BASE SCRIPT`.
/// `NoMemory` only where the first word is `ask`: a question takes memory as it is read, also where it turns out to be none.
pub fn read_request(alloc: Global, words: &[Text]) -> Mem<Option<Request<'_>>>
    ensures read { IfOk result (λ found. MatchOption found (asked_by words.now ≡ None) (λ r. asked_by words.now ≡ Some (asked r))) }
    ensures named { IfOk result (λ found. IfSome found NamesFiles) }
    ensures short { IfErr result (λ _. BeginsQuestion words.now) }
{
    let [word, rest @ ..] = words else {
        return Ok(None);
    };
    let Some(verb) = read_verb(word.as_str()) else {
        return Ok(None);
    };
    read_words(alloc, verb, rest)
}

/// The verb of this name.
fn read_verb(word: &str) -> Option<Verb>
    ensures { result ≡ verb_of word.now }
{
    match word {
        "nodes" => Some(Verb::Nodes),
        "dump" => Some(Verb::Dump),
        "build" => Some(Verb::Build),
        "change" => Some(Verb::Change),
        "fold" => Some(Verb::Fold),
        "ask" => Some(Verb::Ask),
        "check" => Some(Verb::Check),
        "replay" => Some(Verb::Replay),
        _ => None,
    }
}

/// What a verb asks for with these words.
fn read_words(alloc: Global, verb: Verb, words: &[Text]) -> Mem<Option<Request<'_>>>
    ensures read { IfOk result (λ found. MatchOption found (asked_with verb words.now ≡ None) (λ r. asked_with verb words.now ≡ Some (asked r))) }
    ensures named { IfOk result (λ found. IfSome found NamesFiles) }
    ensures short { IfErr result (λ _. verb ≡ Ask) }
{
    match (verb, words) {
        (Verb::Nodes, [rect, base]) => Ok(read_nodes(rect, base)),
        (Verb::Dump, [base]) => {
            let base = base.as_str();
            Ok(Some(Request::Dump { base }))
        }
        (Verb::Build, [rules, base, output]) => {
            let rules = rules.as_str();
            let base = base.as_str();
            let output = output.as_str();
            Ok(Some(Request::Build {
                rules,
                base,
                output,
            }))
        }
        (Verb::Change, [rules, base, stamp, output, changes @ ..]) => {
            Ok(read_change(rules, base, stamp, output, changes))
        }
        (Verb::Fold, [level, output, files @ ..]) => Ok(read_fold(level, output, files)),
        (Verb::Ask, [query, files @ ..]) => read_ask(alloc, query, files),
        (Verb::Check, [file]) => {
            let file = file.as_str();
            Ok(Some(Request::Check { file }))
        }
        (Verb::Replay, [rules, base, script]) => {
            let rules = rules.as_str();
            let base = base.as_str();
            let script = script.as_str();
            Ok(Some(Request::Replay {
                rules,
                base,
                script,
            }))
        }
        _ => Ok(None),
    }
}

/// What `nodes` asks for with these words.
fn read_nodes<'a>(rect: &Text, base: &'a Text) -> Option<Request<'a>>
    ensures read { MatchOption result (asked_with Nodes (rect.now ∷ base.now ∷ []) ≡ None) (λ r. asked_with Nodes (rect.now ∷ base.now ∷ []) ≡ Some (asked r)) }
    ensures named { IfSome result NamesFiles }
{
    let Some(rect) = Rect::read(rect.as_str()) else {
        return None;
    };
    let base = base.as_str();
    Some(Request::Nodes { rect, base })
}

/// What `change` asks for with these words.
fn read_change<'a>(
    rules: &'a Text,
    base: &'a Text,
    stamp: &Text,
    output: &'a Text,
    changes: &'a [Text],
) -> Option<Request<'a>>
    ensures read { MatchOption result (asked_change rules.now base.now stamp.now output.now changes.now ≡ None) (λ r. asked_change rules.now base.now stamp.now output.now changes.now ≡ Some (asked r)) }
    ensures named { IfSome result NamesFiles }
{
    let Some((last, earlier)) = changes.split_last() else {
        return None;
    };
    let Some(hour) = read_hour(stamp.as_str()) else {
        return None;
    };
    let rules = rules.as_str();
    let base = base.as_str();
    let output = output.as_str();
    let last = last.as_str();
    Some(Request::Change {
        rules,
        base,
        hour,
        output,
        earlier,
        last,
    })
}

/// What `fold` asks for with these words.
fn read_fold<'a>(level: &Text, output: &'a Text, files: &'a [Text]) -> Option<Request<'a>>
    ensures read { MatchOption result (asked_fold level.now output.now files.now ≡ None) (λ r. asked_fold level.now output.now files.now ≡ Some (asked r)) }
    ensures named { IfSome result NamesFiles }
{
    if files.is_empty() {
        return None;
    }
    let Some(period) = read_period(level.as_str()) else {
        return None;
    };
    let output = output.as_str();
    Some(Request::Fold {
        period,
        output,
        files,
    })
}

/// The period of this name.
fn read_period(word: &str) -> Option<Period>
    ensures { result ≡ period_of word.now }
{
    match word {
        "day" => Some(Period::Day),
        "month" => Some(Period::Month),
        _ => None,
    }
}

/// What `ask` asks for with these words.
fn read_ask<'a>(alloc: Global, query: &Text, files: &'a [Text]) -> Mem<Option<Request<'a>>>
    ensures read { IfOk result (λ found. MatchOption found (asked_query query.now files.now ≡ None) (λ r. asked_query query.now files.now ≡ Some (asked r))) }
    ensures named { IfOk result (λ found. IfSome found NamesFiles) }
{
    if files.is_empty() {
        return Ok(None);
    }
    match read_query(alloc, query.as_str()) {
        Ok(query) => Ok(Some(Request::Ask { query, files })),
        Err(QueryError::Bad) => Ok(None),
        Err(QueryError::NoMemory) => Err(NoMemory),
    }
}
