//! What the writer writes spells the objects that it was written from: a law over all objects, with
//! nothing to run.

ghost use Rattle.live_model.specs.CanonicalLines.{CanonicalTextLaw};

/// The canonical lines of up to 4,000,000 good objects, as `write` puts them, spell these objects in
/// their order, each of them live. It asks that keys, values and roles are UTF-8, and that versions
/// fit 32 bits.
pub fn written_lines_read_back()
    ensures { CanonicalTextLaw }
{}
