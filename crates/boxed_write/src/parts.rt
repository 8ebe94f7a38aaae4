//! What a class needs to name its texts and to spell its points.

ghost use Rattle.std.specs.Prelude.{◌≡◌, ◌≢◌, ◌++◌, ◌∷◌, [], ◌<◌, ◌^◌, Contains, OnOk};
ghost use Rattle.obf_wire.specs.Fields.{short_field};
ghost use Rattle.coord_delta.specs.Steps.{point_list};
ghost use Rattle.boxed_write.specs.Packed.{text_number};
ghost use Rattle.boxed_write.specs.Classes.{nonempty, with_texts};

use coord_delta::put_points;
use live_model::Point;
use obf_wire::Out;
use owned_data::Mem;
use text_table::TextTable;

/// Takes a text in, unless it is empty. After out of memory the table is as it was.
pub fn add_text(texts: &mut TextTable, text: &str) -> Mem<()>
    ensures { OnOk result (texts.new ≡ with_texts (nonempty (text.now ∷ [])) texts.old) }
{
    if text.is_empty() {
        return Ok(());
    }
    texts.add(text)
}

/// The number of a text of the table: one more than its index, and 0 for the empty text.
pub fn text_number(texts: &TextTable, text: &str) -> u64
    requires { text.now ≢ [] → Contains texts.now text.now }
    ensures { result ≡ text_number texts.now text.now }
{
    if text.is_empty() {
        return 0;
    }
    let count = texts.len() as u64;
    match texts.find(text) {
        Some(index) => {
            prove!(index < count);
            index + 1
        }
        None => 0,
    }
}

/// Appends a field of points. After out of memory a part of it may have been appended.
pub fn put_point_list(number: u64, points: &[Point], out: &mut Out) -> Mem<()>
    requires { number < 2 ^ 29 }
    ensures { OnOk result (out.new ≡ out.old ++ short_field number (point_list points.now)) }
{
    let start = out.begin_short(number)?;
    put_points(points, out)?;
    out.end_short(start)
}
