//! The statuses of a run, and the line that tells each of them.

ghost use Rattle.std.specs.Prelude.{◌≡◌, Some, MatchOption};
ghost use Rattle.run_model.specs.Endings.{NamesFile, code_of, ending, ending_line};

use crate::breaks::Break;
use crate::name::Name;
use file_order::RunKind;
use live_model::NoMemory;
use std::fmt;

/// How a run ended.
#[derive(PartialEq, Eq, Debug, Drop)]
pub enum Status<'a> {
    /// All files were read to their ends, what was to be written was written, and the whole answer was received.
    Ok,
    /// The words are none of the forms.
    BadWords,
    /// The words name more files than a run takes.
    TooManyFiles,
    /// The file has a break, and this is the first.
    Refused {
        file: Name<'a>,
        first: Break,
    },
    /// All files are good, and this one, of this index among them, is the first that does not follow.
    Misfit {
        file: Name<'a>,
        kind: RunKind,
        index: usize,
    },
    /// A read of the file failed.
    ReadFault {
        file: Name<'a>,
    },
    /// The write of the file failed.
    WriteFault {
        file: Name<'a>,
    },
    /// A put of the answer failed.
    AnswerFault,
    /// Memory was refused.
    NoMemory,
    /// The file has, or would get, more bytes than the program takes.
    Limit {
        file: Name<'a>,
    },
}

impl Status<'_> {
    /// The exit code: 0, and 2 to 7; of both faults of writing it is 5.
    pub fn code(&self) -> u8
        ensures { result ≡ code_of (ending self.now) }
    {
        match self {
            Status::Ok => 0,
            Status::BadWords => 2,
            Status::Refused { .. } | Status::Misfit { .. } => 3,
            Status::ReadFault { .. } => 4,
            Status::WriteFault { .. } | Status::AnswerFault => 5,
            Status::NoMemory => 6,
            Status::Limit { .. } | Status::TooManyFiles => 7,
        }
    }
}

impl From<NoMemory> for Status<'_> {
    ghost use Rattle.std.specs.Prelude.{◌≡◌};
    ghost use Rattle.run_model.specs.declared.status.Status.TheVariants.{NoMemory};

    ghost from_gives = { λ _ status. status ≡ NoMemory };

    fn from(_: NoMemory) -> Self {
        Status::NoMemory
    }
}

/// It displays as the line for the error sink, with its line feed, and as nothing for `Ok`.
impl fmt::Display for Status<'_> {
    ghost use Rattle.std.specs.Prelude.{Some};
    ghost use Rattle.run_model.specs.Endings.{ending, ending_line};

    ghost output = { λ status. Some (ending_line (ending status)) };

    fn fmt<W: fmt::Write>(&self, f: &mut fmt::Formatter<W>) -> fmt::Result {
        match self {
            Status::Ok => f.write_str(""),
            Status::BadWords => f.write_str(BAD_WORDS),
            Status::TooManyFiles => f.write_str(TOO_MANY_FILES),
            Status::Refused { file, first } => {
                let file = file.as_str();
                let first = *first;
                write!(f, "obf: {file}: {first}\n")
            }
            Status::Misfit { file, kind, index } => {
                let file = file.as_str();
                let kind = *kind;
                let index = *index;
                write!(f, "obf: {file}: {kind} as file {index}\n")
            }
            Status::ReadFault { file } => {
                let file = file.as_str();
                write!(f, "obf: cannot read {file}\n")
            }
            Status::WriteFault { file } => {
                let file = file.as_str();
                write!(f, "obf: cannot write {file}\n")
            }
            Status::AnswerFault => f.write_str(ANSWER_FAULT),
            Status::NoMemory => f.write_str(NO_MEMORY),
            Status::Limit { file } => {
                let file = file.as_str();
                write!(f, "obf: {file}: over the limit\n")
            }
        }
    }
}

const BAD_WORDS: &str = "obf: the words are none of the ten forms\n";

const TOO_MANY_FILES: &str = "obf: too many files\n";

const ANSWER_FAULT: &str = "obf: cannot write the answer\n";

/// The line of the status 6.
pub const NO_MEMORY: &str = "obf: no memory\n";

/// The line of a status that names no file. `None` exactly where it names one.
pub fn fixed_line(status: &Status<'_>) -> Option<&'static str>
    ensures { MatchOption result (NamesFile (ending status.now)) (λ line. ending_line (ending status.now) ≡ line.now) }
{
    match status {
        Status::Ok => Some(""),
        Status::BadWords => Some(BAD_WORDS),
        Status::TooManyFiles => Some(TOO_MANY_FILES),
        Status::AnswerFault => Some(ANSWER_FAULT),
        Status::NoMemory => Some(NO_MEMORY),
        Status::Refused { .. }
        | Status::Misfit { .. }
        | Status::ReadFault { .. }
        | Status::WriteFault { .. }
        | Status::Limit { .. } => None,
    }
}
