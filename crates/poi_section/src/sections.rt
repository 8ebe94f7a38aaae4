//! Groups of points of interest that were checked, to be read.

ghost use Rattle.std.specs.Prelude.{◌≡◌, ◌≤◌, List, Ok, length, map, slice_get, None, Some, IsUtf8, MatchOption};
ghost use Rattle.std.specs.Option.{option_map};
ghost use Rattle.obf_wire.specs.Windows.{range_of};
ghost use Rattle.file_grammar.specs.declared.parts.Part.TheVariants.{Pois as PoisPart};
ghost use Rattle.file_grammar.specs.Messages.{Fields};
ghost use Rattle.file_grammar.specs.PoiRules.{groups_in};
ghost use Rattle.file_grammar.specs.Readings.{message_at};
ghost use Rattle.poi_section.specs.CategoryHits.{category_hits};
ghost use Rattle.poi_section.specs.PoiSections.{ArePoisChecked, HoldsGroup, category_in, group_read, section_kept};

use crate::category_cursor::CategoryCursor;
use crate::class::PoiClass;
use crate::kept::{GroupKept, PoisKept};
use boxed_read::Section;
use live_model::Rect;
use obf_wire::Window;
use std::marker::Model;
use std::str::from_utf8;

/// Groups of which every rule holds, seen as the category and the records of each, in the order of the file. It borrows the bytes and what the check
/// left of them.
#[derive(Drop)]
pub struct Pois<'a> {
    window: Window<'a>,
    kept: &'a PoisKept,
}

impl<'a> Model for Pois<'a> {
    ghost use Rattle.std.specs.Prelude.{List, map};
    ghost use Rattle.obf_wire.specs.Windows.{range_of};
    ghost use Rattle.poi_section.specs.PoiSections.{ArePoisChecked, GroupRead, group_kept};

    ghost Value = { List GroupRead };

    ghost view = { λ p. map (group_kept p.window.bytes.now) p.kept.now.groups.items };

    ghost invariant = { λ p. ArePoisChecked (range_of p.window) p.kept.now };
}

impl<'a> Pois<'a> {
    /// The groups in a window of which a check left this.
    pub fn new(window: Window<'a>, kept: &'a PoisKept) -> Pois<'a>
        requires { ArePoisChecked (range_of window) kept.now }
        ensures { (fields : Fields) → message_at PoisPart (range_of window.entry) ≡ Ok fields → result ≡ map group_read (groups_in fields) }
    {
        Pois { window, kept }
    }

    /// How many groups there are.
    pub fn len(&self) -> usize
        ensures { result ≡ length self.now }
    {
        self.kept.groups().len()
    }

    /// The section of the group at an index; `None` exactly where there is none.
    pub fn group(&self, index: usize) -> Option<Section<'a, PoiClass>>
        ensures { MatchOption result (slice_get self.now index ≡ None) (λ section. option_map (λ g. g.section) (slice_get self.now index) ≡ Some section) }
    {
        match group_at(self.kept.groups(), index) {
            Some(group) => Some(section_of(self.window, group)),
            None => None,
        }
    }

    /// The points of interest of a category in a rectangle, edges included, in the order of the file. A file may have more than one group of a category.
    pub fn category(&self, category: &'a str, rect: Rect) -> CategoryCursor<'a>
        ensures { result ≡ category_hits category.entry.now rect self.now }
    {
        CategoryCursor::new(self.window, self.kept.groups(), category, rect)
    }
}

/// The group at an index.
fn group_at(groups: &[GroupKept], index: usize) -> Option<&GroupKept>
    ensures { MatchOption result (slice_get groups.now index ≡ None) (λ group. slice_get groups.now index ≡ Some group.now) }
{
    groups.get(index)
}

/// The section of a group.
pub(crate) fn section_of<'a>(window: Window<'a>, group: &'a GroupKept) -> Section<'a, PoiClass>
    requires { HoldsGroup window.bytes.now group.now }
    ensures { result ≡ section_kept window.entry.bytes.now group.entry.now }
{
    let records = window.part(group.records.from, group.records.to);
    Section::of_group(records, &group.kept, category_of(window, group))
}

/// The category of a group.
pub(crate) fn category_of<'a>(window: Window<'a>, group: &GroupKept) -> &'a str
    requires { HoldsGroup window.bytes.now group.now }
    ensures { result.now ≡ category_in window.entry.bytes.now group.now }
{
    from_utf8(&window.all()[group.category.from..group.category.to]).unwrap()
}
