//! Named files.

ghost use Rattle.std.specs.Prelude.{◌≡◌, ◌++◌, ◌∷◌, [], ◌≤◌, length, take, IfOk, OnErr};
ghost use Rattle.outside.specs.Files.{FilesState, OnlyReads, OnlyWrites, IsPartIn, FailsToRead, Lacks, NotesWrite, Writes};
ghost use Rattle.outside.specs.Faults.{Blames};
ghost use Rattle.outside.specs.Readings.{reading};

use crate::failed::Failed;

/// Files that are read and written by name.
///
/// `state` is what can be told of them: their contents, or that these are not told; two counts of faults, which never
/// fall; and, since the files were made and in order, what the successful reads gave, and the writes that were tried.
pub trait Files {
    ghost state: { Self → FilesState };

    /// Puts bytes of the file `name`, from the byte `place` on, at the front of `buf` and answers how many these are.
    /// It may be fewer than fit. It is 0 only where `buf` is empty or nothing stands at `place`; what stands in `buf`
    /// after them is not said.
    ///
    /// `Failed` comes only where the count of read faults rose, or where the contents are told and have no such name;
    /// in the second case the count stays.
    fn read(&mut self, name: &str, place: u64, buf: &mut [u8]) -> Result<usize, Failed>
        ensures bound { IfOk result (λ n. n ≤ length buf.new) }
        ensures part { IfOk result (λ n. IsPartIn (state self.old).contents name.now place (length buf.new) (take n buf.new)) }
        ensures given { IfOk result (λ n. (state self.new).given ≡ (state self.old).given ++ reading name.now place (length buf.new) (take n buf.new) ∷ []) }
        ensures not_given { OnErr result ((state self.new).given ≡ (state self.old).given) }
        ensures cause { FailsToRead (state self.old) (state self.new) name.now result }
        ensures only_reads { OnlyReads (state self.old) (state self.new) };

    /// Makes the file `name` hold exactly these bytes. No other file changes, also after `Failed`, when nothing is said
    /// of this one. `Failed` comes only where the count of write faults rose.
    fn write(&mut self, name: &str, bytes: &[u8]) -> Result<(), Failed>
        ensures noted { NotesWrite (state self.old).writes (state self.new).writes name.now bytes.now result }
        ensures contents { Writes (state self.old).contents (state self.new).contents name.now bytes.now result }
        ensures cause { Blames (state self.old).write_faults (state self.new).write_faults result }
        ensures only_writes { OnlyWrites (state self.old) (state self.new) };
}
