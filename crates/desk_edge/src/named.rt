ghost use Rattle.std.specs.Prelude.{◌≡◌, MatchOption, None};
ghost use Rattle.std.specs.Ordering.{is_eq};
ghost use Rattle.desk_edge.specs.Shelves.{StandsFirst, name_cmp};
ghost use Rattle.desk_rows.specs.Rows.{row_of};

use crate::map_keeper::MapKeeper;
use desk_text::Bytes;

/// The place of the first store of this name.
pub(crate) fn place_of_store(stores: &[(Bytes, MapKeeper)], name: &[u8]) -> Option<usize>
    ensures { MatchOption result (row_of (λ store. store.0) name_cmp name.now stores.now ≡ None) (StandsFirst (λ store. store.0) name.now stores.now) }
{
    for (place, store) in stores.iter().enumerate() {
        if is_name(&store.0, name) {
            return Some(place);
        }
    }
    None
}

/// The place of the first of these names that is the one sought.
pub(crate) fn place_of_name(names: &[Bytes], name: &[u8]) -> Option<usize>
    ensures { MatchOption result (row_of (λ own. own) name_cmp name.now names.now ≡ None) (StandsFirst (λ own. own) name.now names.now) }
{
    for (place, own) in names.iter().enumerate() {
        if is_name(own, name) {
            return Some(place);
        }
    }
    None
}

/// Whether the two are one name.
fn is_name(own: &Bytes, name: &[u8]) -> bool
    ensures { result ≡ is_eq (name_cmp own.now name.now) }
{
    own.as_slice().cmp(&name).is_eq()
}
