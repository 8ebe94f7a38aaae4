//! Files in memory.

ghost use Rattle.std.specs.Prelude.{◌≡◌, ◌≢◌, ◌≤◌, ◌<◌, [], ℕ, Some, IsTrue, IfSome, OnOk, OnErr, length, take, filter, not};
ghost use Rattle.std.specs.Option.{option_copied};
ghost use Rattle.std.specs.Str.{bytes_eq};
ghost use Rattle.outside.specs.Files.{IsPart, Replaces, OthersStay};
ghost use Rattle.outside.specs.Memory.{contents_of, names_differ};

use crate::failed::Failed;
use crate::files::Files;
use crate::named_file::NamedFile;
use crate::trace::{Note, Trace};
use owned_data::{List, Mem, Text};
use std::alloc::Global;

/// Files that are held in memory. They fail at the calls that their maker lists, and give a few bytes at a time.
#[derive(Drop)]
pub struct MemFiles {
    alloc: Global,
    files: Vec<NamedFile>,
    failing_reads: Vec<u64>,
    failing_writes: Vec<u64>,
    most: usize,
    reads: u64,
    writes: u64,
    read_faults: u64,
    write_faults: u64,
    trace: Trace,
    ghost gives_some: { 0 < most },
}

impl MemFiles {
    ghost use Rattle.outside.specs.Shown.{files_state};

    /// These files and no others. Reads and writes are counted apart, each from 1; those whose numbers stand in the
    /// lists fail, but for a read of a name that has no file, which fails without a fault. A read gives `most` bytes at
    /// most. The allocator is kept for what is written: where it has no room for that, the write fails too.
    pub fn new(
        alloc: Global,
        files: Vec<NamedFile>,
        failing_reads: Vec<u64>,
        failing_writes: Vec<u64>,
        most: usize,
    ) -> MemFiles
        requires names_differ { IsTrue (names_differ files.items) }
        requires gives_some { 0 < most }
        ensures contents { (files_state result).contents ≡ Some (contents_of files.items) }
        ensures read_faults { (files_state result).read_faults ≡ 0 }
        ensures write_faults { (files_state result).write_faults ≡ 0 }
        ensures given { (files_state result).given ≡ [] }
        ensures writes { (files_state result).writes ≡ [] }
    {
        MemFiles {
            alloc,
            files,
            failing_reads,
            failing_writes,
            most,
            reads: 0,
            writes: 0,
            read_faults: 0,
            write_faults: 0,
            trace: Trace::new(),
        }
    }

    /// The bytes of the file of this name, if there is one.
    pub fn contents_of(&self, name: &str) -> Option<&[u8]>
        ensures { IfSome (files_state self.now).contents (λ contents. option_copied result ≡ contents name.now) }
    {
        bytes_of(self.files.as_slice(), name)
    }

    /// How many reads failed by a fault; it stands still at the last value of its type.
    pub fn read_faults(&self) -> u64
        ensures { result ≡ (files_state self.now).read_faults }
    {
        self.read_faults
    }

    /// How many writes failed; it stands still at the last value of its type.
    pub fn write_faults(&self) -> u64
        ensures { result ≡ (files_state self.now).write_faults }
    {
        self.write_faults
    }
}

impl Files for MemFiles {
    ghost use Rattle.outside.specs.Shown.{files_state};

    ghost state = { files_state };

    fn read(&mut self, name: &str, place: u64, buf: &mut [u8]) -> Result<usize, Failed> {
        self.reads = self.reads.saturating_add(1);
        let Some(file) = bytes_of(self.files.as_slice(), name) else {
            return Err(Failed);
        };
        if self.failing_reads.contains(&self.reads) {
            self.read_faults = self.read_faults.saturating_add(1);
            return Err(Failed);
        }
        let room = buf.len();
        let n = copy_part(file, place, self.most, buf);
        self.trace = self.trace.and(&Note::Given {
            name,
            place,
            room,
            bytes: &buf[..n],
        });
        Ok(n)
    }

    fn write(&mut self, name: &str, bytes: &[u8]) -> Result<(), Failed> {
        self.writes = self.writes.saturating_add(1);
        let is_done = !self.failing_writes.contains(&self.writes)
            && replace(self.alloc, &mut self.files, name, bytes).is_ok();
        self.trace = self.trace.and(&Note::Written {
            name,
            bytes,
            is_done,
        });
        if is_done {
            Ok(())
        } else {
            self.write_faults = self.write_faults.saturating_add(1);
            Err(Failed)
        }
    }
}

/// The bytes of the file of this name, if there is one.
fn bytes_of<'a>(files: &'a [NamedFile], name: &str) -> Option<&'a [u8]>
    ensures { option_copied result ≡ contents_of files.now name.now }
{
    let mut rest = files;
    while let [file, after @ ..] = rest {
        if file.name.as_str() == name {
            return Some(file.bytes.as_slice());
        }
        rest = after;
    }
    None
}

/// Whether no two of these files have one name.
pub fn names_differ(files: &[NamedFile]) -> bool
    ensures { result ≡ names_differ files.now }
{
    let mut rest = files;
    while let [file, after @ ..] = rest {
        if bytes_of(after, file.name.as_str()).is_some() {
            return false;
        }
        rest = after;
    }
    true
}

/// Copies the first bytes of the file from a place on, at most so many, and answers how many these are.
fn copy_part(file: &[u8], place: u64, most: usize, buf: &mut [u8]) -> usize
    requires { 0 < most }
    ensures bound { result ≤ length buf.new }
    ensures part { IsPart file.now place (length buf.new) (take result buf.new) }
{
    if place >= file.len() as u64 {
        return 0;
    }
    let rest = &file[place as usize..];
    let n = rest.len().min(buf.len()).min(most);
    buf[..n].copy_from_slice(&rest[..n]);
    n
}

/// Leaves all files but those of this name.
fn take_away(files: &mut Vec<NamedFile>, name: &str)
    ensures { files.new.items ≡ filter (λ file. not (bytes_eq file.name name.now)) files.old.items }
{
    files.retain(|file| file.name.as_str() != name);
}

/// Puts a file of this name with these bytes in the place of the one that is there.
fn replace(alloc: Global, files: &mut Vec<NamedFile>, name: &str, bytes: &[u8]) -> Mem<()>
    ensures ok { OnOk result (Replaces (contents_of files.old.items) (contents_of files.new.items) name.now bytes.now) }
    ensures err { OnErr result (OthersStay (contents_of files.old.items) (contents_of files.new.items) name.now) }
{
    let file = NamedFile {
        name: Text::copied(alloc, name)?,
        bytes: List::from_vec(Vec::from_slice(alloc, bytes)?),
    };
    take_away(files, name);
    files.push(file)?;
    Ok(())
}
