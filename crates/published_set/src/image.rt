//! What a map file that was read stands for.

ghost use Rattle.file_grammar.specs.Files.{whole};
ghost use Rattle.file_grammar.specs.Readings.{IsInMemory};
ghost use Rattle.published_set.specs.Images.{IsItsFile, image_of};

use obf_reader::Image;

/// That the bytes of an image are the file of its head, its rules, the objects that it marks, and all its records. There is
/// nothing to run.
pub fn images_stand_for_their_files(image: &Image)
    ensures { IsItsFile image.now (image_of image.now) }
{
    in_memory(image.bytes());
}

/// That bytes are fewer than 2^64, and each is one.
fn in_memory(bytes: &[u8])
    ensures { IsInMemory (whole bytes.now) }
{
    let _ = bytes.len();
}
