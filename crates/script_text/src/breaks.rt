//! Where a script breaks, and how.

use line_texts::{LineError, TextBreak};

/// How a line of a script breaks, in the order of its tests.
#[derive(Clone, Copy, PartialEq, Eq, Debug)]
pub enum ScriptKind {
    /// The line is not UTF-8.
    NotUtf8,
    /// The first field is no lane.
    BadLane,
    /// The second field is neither `P` nor `Q`.
    BadVerb,
    /// The field after `P` names no hour of the calendar.
    BadStamp,
    /// The next field is no name, or another field comes after it.
    BadName,
    /// The fields after `Q` are no question.
    BadQuery,
    /// The line is the 100,001st.
    OverLimit,
}

/// Where a script breaks, in bytes from its first one, and how.
pub type ScriptBreak = TextBreak<ScriptKind>;

/// Why a script was not read.
pub type ScriptError = LineError<ScriptKind>;
