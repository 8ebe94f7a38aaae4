//! What is printed in the end: the history, and the files.

ghost use Rattle.std.specs.Prelude.{◌≡◌, ◌++◌, IfOk, length, map};
ghost use Rattle.std.specs.Arc.{arc_value};
ghost use Rattle.file_lines.specs.FileLines.{file_line};
ghost use Rattle.obf_reader.specs.Overlays.{overlay_of};
ghost use Rattle.overlay_set.specs.Sets.{images_of};
ghost use Rattle.published_set.specs.Sets.{entry_of, images_in};
ghost use Rattle.session_text.specs.Sessions.{entries_text, file_lines, files_text, history_text};

use file_lines::put_file_line;
use live_model::Mem;
use obf_reader::Image;
use published_set::{OverlaySet, Published};
use session_text::{put_count_line, put_entry};
use std::sync::Arc;

/// That an image counts the records that it holds. There is nothing to run.
fn images_count_their_records(image: &Image)
    ensures { image.now.records ≡ length (overlay_of image.now).records }
{
    let _ = image.bytes();
}

/// Puts the line of a file.
fn put_image(out: &mut Vec<u8>, image: &Image) -> Mem<()>
    ensures { IfOk result (λ _. out.new.items ≡ out.old.items ++ file_line image.now.head (length (overlay_of image.now).marks) (length (overlay_of image.now).records)) }
{
    images_count_their_records(image);
    put_file_line(out, image.head(), image.mark_count(), image.record_count())
}

/// Puts the lines of files.
fn put_images(out: &mut Vec<u8>, images: &[Arc<Image>]) -> Mem<()>
    ensures { IfOk result (λ _. out.new.items ≡ out.old.items ++ file_lines (images_in (map arc_value images.now))) }
{
    for image in images {
        put_image(out, image)?;
    }
    Ok(())
}

/// Puts the lines of publications.
fn put_entries(out: &mut Vec<u8>, history: &[Published]) -> Mem<()>
    ensures { IfOk result (λ _. out.new.items ≡ out.old.items ++ entries_text 1 (map entry_of history.now)) }
{
    for index in 0..history.len() {
        let published = &history[index];
        put_entry(out, index as u64 + 1, &published.stamp, published.tag)?;
    }
    Ok(())
}

/// Puts the history of a set, and its files.
pub fn put_end(out: &mut Vec<u8>, set: &OverlaySet) -> Mem<()>
    ensures { IfOk result (λ _. out.new.items ≡ out.old.items ++ (history_text set.now.state.history ++ files_text (images_of set.now.state.files))) }
{
    put_count_line(out, b"history", set.history().len() as u64)?;
    put_entries(out, set.history())?;
    put_count_line(out, b"files", set.images().len() as u64)?;
    put_images(out, set.images())
}
