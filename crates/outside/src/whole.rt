//! Reading a file whole.

ghost use Rattle.std.specs.Prelude.{◌≡◌, ◌<◌, ◌≤◌, ◌^◌, IfOk, IfErr, length, vec_len};
ghost use Rattle.outside.specs.Files.{OnlyReads, Lacks};
ghost use Rattle.outside.specs.Whole.{IsWhole, Explains, Settles};
ghost use Rattle.outside.specs.Turns.{Takes, Stops};
ghost use Rattle.outside.specs.declared.whole.WholeError.TheVariants.{NoMemory as OutOfMemory, Failed as ReadFailed};

use crate::failed::Failed;
use crate::files::Files;
use std::alloc::{AllocError, Global};
use std::error::Error;
use std::fmt;

/// Why a file was not read whole.
#[derive(Clone, Copy, PartialEq, Eq, Debug)]
pub enum WholeError {
    /// Memory was refused.
    NoMemory,
    /// A read failed.
    Failed,
    /// The file has more bytes than may be.
    OverLimit,
}

impl fmt::Display for WholeError {
    fn fmt<W: fmt::Write>(&self, f: &mut fmt::Formatter<W>) -> fmt::Result {
        match self {
            WholeError::NoMemory => f.write_str("no memory"),
            WholeError::Failed => f.write_str("a read failed"),
            WholeError::OverLimit => f.write_str("over the limit"),
        }
    }
}

impl Error for WholeError {}

impl From<AllocError> for WholeError {
    ghost from_gives = { λ _ e. e ≡ OutOfMemory };

    fn from(_: AllocError) -> Self {
        WholeError::NoMemory
    }
}

impl From<Failed> for WholeError {
    ghost from_gives = { λ _ e. e ≡ ReadFailed };

    fn from(_: Failed) -> Self {
        WholeError::Failed
    }
}

/// Reads the file `name` from its start to its end, which is where a read gives nothing, and answers its bytes, at most
/// `most` of them. Of one file it asks for at most `most + 1` bytes.
///
/// `OverLimit` comes exactly where the reads gave `most + 1` bytes, and `Failed` only where a read failed: where the
/// count of read faults rose, or where the contents are told and have no such name. Then the count stays. No file and
/// no write count changes.
pub fn read_whole<F: Files>(
    alloc: Global,
    files: &mut F,
    name: &str,
    most: usize,
) -> Result<Vec<u8>, WholeError>
    ensures whole { IfOk result (λ bytes. IsWhole (F.state files.old) (F.state files.new) name.now most bytes.items) }
    ensures explained { IfErr result (λ e. Explains (F.state files.old) (F.state files.new) name.now most e) }
    ensures settled { Settles (F.state files.old) (F.state files.new) name.now most result }
    ensures only_reads { OnlyReads (F.state files.old) (F.state files.new) }
    ensures missing { Lacks (F.state files.old).contents name.now → (F.state files.new).read_faults ≡ (F.state files.old).read_faults }
{
    let mut buf = buffer(alloc)?;
    let mut bytes = Vec::new(alloc);
    while read_turn(files, name, most, &mut buf, &mut bytes)? > 0 {}
    Ok(bytes)
}

/// Room for one piece of a file.
fn buffer(alloc: Global) -> Result<Vec<u8>, AllocError>
    ensures { IfOk result (λ buf. 0 < vec_len buf) }
{
    vec![in alloc; 0; 65536]
}

/// Reads the next piece of the file and puts it behind `bytes`. Answers its length, which is 0 at the end.
fn read_turn<F: Files>(
    files: &mut F,
    name: &str,
    most: usize,
    buf: &mut [u8],
    bytes: &mut Vec<u8>,
) -> Result<usize, WholeError>
    requires some_room { 0 < length buf.old }
    requires within { vec_len bytes.old ≤ most }
    ensures taken { IfOk result (λ n. Takes (F.state files.old) (F.state files.new) name.now most bytes.old.items bytes.new.items n) }
    ensures stopped { IfErr result (λ e. Stops (F.state files.old) (F.state files.new) name.now most bytes.old.items e) }
    ensures only_reads { OnlyReads (F.state files.old) (F.state files.new) }
    ensures missing { Lacks (F.state files.old).contents name.now → (F.state files.new).read_faults ≡ (F.state files.old).read_faults }
{
    let left = most - bytes.len();
    let room = if left < buf.len() {
        left + 1
    } else {
        buf.len()
    };
    let part = &mut buf[..room];
    let n = files.read(name, bytes.len() as u64, part)?;
    if left < n {
        return Err(WholeError::OverLimit);
    }
    if n > 0 {
        bytes.extend_from_slice(&part[..n])?;
    }
    Ok(n)
}
