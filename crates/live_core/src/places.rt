//! Lists with a place for each pass or worker.

ghost use Rattle.std.specs.Prelude.{◌≡◌, ◌<◌, IfOk, None, length, replicate, slice_set};
ghost use Rattle.std.specs.Option.{option_copied};
ghost use Rattle.overlay_set.specs.Machines.{at_place};

use live_model::Mem;
use std::alloc::Global;

/// So many places, with nothing there.
pub fn empty_places<T: Drop>(alloc: Global, count: u8) -> Mem<Vec<Option<T>>>
    ensures { IfOk result (λ places. places.items ≡ replicate count None) }
{
    let mut places = Vec::new(alloc);
    for _ in 0..count {
        places.push(None)?;
    }
    Ok(places)
}

/// Puts an item, or nothing, at a place.
pub fn put_at<T: Drop>(places: &mut Vec<Option<T>>, place: u8, item: Option<T>)
    requires { place < length places.old.items }
    ensures { places.new.items ≡ slice_set places.old.items place item }
{
    places[usize::from(place)] = item;
}

/// The item at a place, if there is one.
pub fn item_at<T>(places: &[Option<T>], place: u8) -> Option<&T>
    requires { place < length places.now }
    ensures { option_copied result ≡ at_place places.now place }
{
    places[usize::from(place)].as_ref()
}

/// Takes away the item at a place, if there is one.
pub fn take_at<T: Drop>(places: &mut Vec<Option<T>>, place: u8) -> Option<T>
    requires { place < length places.old.items }
    ensures item { result ≡ at_place places.old.items place }
    ensures places { places.new.items ≡ slice_set places.old.items place None }
{
    places[usize::from(place)].take()
}
