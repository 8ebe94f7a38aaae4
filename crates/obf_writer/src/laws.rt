//! What packed bytes are: a law, with nothing to run.

ghost use Rattle.obf_writer.specs.PackedFile.{PackedFileLaw};

/// That what is packed of the parts of a file is a file with just these parts, where it is shorter than 2^64 bytes.
pub fn packed_files_are_files()
    ensures { PackedFileLaw }
{}
