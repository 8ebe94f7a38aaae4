//! What an image holds can be packed again.

ghost use Rattle.packed_image.specs.Overlays.{HoldsParts};

use crate::packing::in_memory;
use obf_reader::Image;

/// That what an image holds meets what is asked of parts that are packed. There is nothing to run.
pub fn images_hold_parts(image: &Image)
    ensures { HoldsParts image.now }
{
    in_memory(image.bytes());
    let _ = image.rules().text();
}
