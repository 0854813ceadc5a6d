use crate::kind::Kind;
use desk_text::Day;

/// For which kind of equipment and on which day a material is judged.
#[derive(Clone, Copy, Debug)]
pub struct KindOnDay {
    /// The kind of equipment.
    pub kind: Kind,
    /// The day. Calls that judge ask that it is 2014-07-22 or later.
    pub day: Day,
}
