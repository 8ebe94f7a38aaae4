//! What there is beside a section.

use obf_wire::Marks;
use tag_rules::Rules;

/// What there is beside the records of a section: the rules of the file, and the ordinals that may stand.
#[derive(Clone, Copy)]
pub struct Around<'a> {
    pub rules: &'a Rules,
    pub marks: Marks<'a>,
}
