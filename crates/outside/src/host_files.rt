//! Files of the system.

ghost use Rattle.std.specs.Prelude.{◌≡◌, ◌≤◌, [], ℕ, None, Some, IfOk, IfSome, length, take};

use crate::failed::Failed;
use crate::files::Files;
use crate::replacing::write_whole;
use crate::trace::{Note, Trace};
use owned_data::Text;
use std::alloc::Global;
use std::io::{Read, Seek, SeekFrom};
use std::{fs, io, rt};

/// A file that was read, and where the next read would begin.
#[derive(Drop)]
struct OpenedFile<F: Drop> {
    name: Text,
    file: F,
    place: u64,
}

/// The files of a runtime. The file that was read last stays open until its end was read, a read begins elsewhere, or a
/// file is written.
#[derive(Drop)]
pub struct HostFiles<'a, R: rt::Files> {
    alloc: Global,
    runtime: &'a R,
    opened: Option<OpenedFile<R::File>>,
    read_faults: u64,
    write_faults: u64,
    trace: Trace,
}

impl<'a, R: rt::Files> HostFiles<'a, R> {
    /// The files that this runtime reaches, of which none was read or written. The allocator is kept, for the name of the
    /// file that stays open, and for those of new files.
    pub fn new(alloc: Global, runtime: &'a R) -> HostFiles<'a, R>
        ensures contents { (⟦<HostFiles<'a, R> as Files>⟧.state result).contents ≡ None }
        ensures read_faults { (⟦<HostFiles<'a, R> as Files>⟧.state result).read_faults ≡ 0 }
        ensures write_faults { (⟦<HostFiles<'a, R> as Files>⟧.state result).write_faults ≡ 0 }
        ensures given { (⟦<HostFiles<'a, R> as Files>⟧.state result).given ≡ [] }
        ensures writes { (⟦<HostFiles<'a, R> as Files>⟧.state result).writes ≡ [] }
    {
        HostFiles {
            alloc,
            runtime,
            opened: None,
            read_faults: 0,
            write_faults: 0,
            trace: Trace::new(),
        }
    }

    /// How many reads failed; it stands still at the last value of its type.
    pub fn read_faults(&self) -> u64
        ensures { result ≡ (⟦<HostFiles<'a, R> as Files>⟧.state self.now).read_faults }
    {
        self.read_faults
    }

    /// How many writes failed; it stands still at the last value of its type.
    pub fn write_faults(&self) -> u64
        ensures { result ≡ (⟦<HostFiles<'a, R> as Files>⟧.state self.now).write_faults }
    {
        self.write_faults
    }
}

/// A file that is written comes into its place whole, but where the name has a device, a pipe or the like.
impl<R: rt::Files> Files for HostFiles<'_, R> {
    ghost state = { λ files. record {
      contents = None;
      read_faults = files.read_faults;
      write_faults = files.write_faults;
      given = files.trace.noted.given;
      writes = files.trace.noted.writes;
    } };

    fn read(&mut self, name: &str, place: u64, buf: &mut [u8]) -> Result<usize, Failed> {
        let room = buf.len();
        match read_at(self.runtime, &mut self.opened, self.alloc, name, place, buf) {
            Ok(n) => {
                self.trace = self.trace.and(&Note::Given {
                    name,
                    place,
                    room,
                    bytes: &buf[..n],
                });
                Ok(n)
            }
            Err(_) => {
                self.read_faults = self.read_faults.saturating_add(1);
                Err(Failed)
            }
        }
    }

    fn write(&mut self, name: &str, bytes: &[u8]) -> Result<(), Failed> {
        self.opened = None;
        let written = write_whole(self.runtime, self.alloc, name, bytes);
        let is_done = written.is_ok();
        self.trace = self.trace.and(&Note::Written {
            name,
            bytes,
            is_done,
        });
        if is_done {
            Ok(())
        } else {
            self.write_faults = self.write_faults.saturating_add(1);
            Err(Failed)
        }
    }
}

/// Reads a piece of the file `name` from `place` on, from the file that is open if the read goes on there.
fn read_at<R: rt::Files>(
    runtime: &R,
    opened: &mut Option<OpenedFile<R::File>>,
    alloc: Global,
    name: &str,
    place: u64,
    buf: &mut [u8],
) -> io::Result<usize>
    ensures bound { IfOk result (λ n. n ≤ length buf.new) }
    ensures kept { IfSome opened.new (λ next. next.name ≡ name.now) }
{
    let mut file = match take_opened(opened, name, place) {
        Some(file) => file,
        None => open_at(runtime, name, place)?,
    };
    let n = file.read(buf)?;
    if n > 0 {
        *opened = kept(alloc, name, file, place.saturating_add(n as u64));
    }
    Ok(n)
}

/// The open file, where it has this name and its next read begins at this place. No file is open then.
fn take_opened<F: Drop>(opened: &mut Option<OpenedFile<F>>, name: &str, place: u64) -> Option<F>
    ensures same { IfSome result (λ file. opened.old ≡ Some (record { name = name.now; file = file; place = place })) }
    ensures none { opened.new ≡ None }
{
    match opened.take() {
        Some(last) if last.place == place && last.name.as_str() == name => Some(last.file),
        _ => None,
    }
}

/// The file, opened for reading from a place on.
fn open_at<R: rt::Files>(runtime: &R, name: &str, place: u64) -> io::Result<R::File> {
    let mut file = fs::open(runtime, name)?;
    if place > 0 {
        file.seek(SeekFrom::Start(place))?;
    }
    Ok(file)
}

/// The open file with its name; where there is no memory for that, none.
fn kept<F: Drop>(alloc: Global, name: &str, file: F, place: u64) -> Option<OpenedFile<F>>
    ensures { IfSome result (λ next. next ≡ record { name = name.now; file = file; place = place }) }
{
    match Text::copied(alloc, name) {
        Ok(name) => Some(OpenedFile { name, file, place }),
        Err(_) => None,
    }
}
