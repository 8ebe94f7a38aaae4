//! Further owners of what sets share.

ghost use Rattle.std.specs.Prelude.{◌≡◌, ◌≤◌, IfOk, length, map, slice_range};
ghost use Rattle.std.specs.Arc.{arc_value};
ghost use Rattle.std.specs.Vec.{vec_capacity};
ghost use Rattle.published_set.specs.Sets.{entry_of};

use crate::entry::Published;
use live_model::Mem;
use obf_reader::Image;
use std::alloc::Global;
use std::sync::Arc;

/// The same publications, with room for so many.
pub fn copy_history(alloc: Global, history: &[Published], room: usize) -> Mem<Vec<Published>>
    ensures copied { IfOk result (λ copied. map entry_of copied.items ≡ map entry_of history.now) }
    ensures room { IfOk result (λ copied. room ≤ vec_capacity copied) }
{
    let mut copied = Vec::with_capacity(alloc, room)?;
    for published in history {
        let further = published.copy()?;
        copied.push(further)?;
    }
    Ok(copied)
}

/// The same images, with room for so many.
pub fn copy_images(alloc: Global, images: &[Arc<Image>], room: usize) -> Mem<Vec<Arc<Image>>>
    ensures copied { IfOk result (λ copied. map arc_value copied.items ≡ map arc_value images.now) }
    ensures room { IfOk result (λ copied. room ≤ vec_capacity copied) }
{
    let mut copied = Vec::with_capacity(alloc, room)?;
    for image in images {
        let further = Arc::try_clone(image)?;
        copied.push(further)?;
    }
    Ok(copied)
}

/// The same numbers, with room for so many.
pub fn copy_numbers(alloc: Global, numbers: &[u64], room: usize) -> Mem<Vec<u64>>
    ensures copied { IfOk result (λ copied. copied.items ≡ numbers.now) }
    ensures room { IfOk result (λ copied. room ≤ vec_capacity copied) }
{
    let mut copied = Vec::with_capacity(alloc, room)?;
    for number in numbers {
        copied.push(*number)?;
    }
    Ok(copied)
}

/// The numbers from an index up to another.
pub fn numbers_between(alloc: Global, numbers: &[u64], from: usize, to: usize) -> Mem<Vec<u64>>
    requires { (from ≤ to) × (to ≤ length numbers.now) }
    ensures { IfOk result (λ copied. copied.items ≡ slice_range numbers.now from to) }
{
    copy_numbers(alloc, &numbers[from..to], 0)
}

/// The images from an index up to another.
pub fn images_between(
    alloc: Global,
    images: &[Arc<Image>],
    from: usize,
    to: usize,
) -> Mem<Vec<Arc<Image>>>
    requires { (from ≤ to) × (to ≤ length images.now) }
    ensures { IfOk result (λ copied. map arc_value copied.items ≡ map arc_value (slice_range images.now from to)) }
{
    copy_images(alloc, &images[from..to], 0)
}
