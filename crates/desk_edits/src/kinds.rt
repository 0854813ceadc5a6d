ghost use Rattle.std.specs.Prelude.{◌≡◌, option_and_then};
ghost use Rattle.serde_json.specs.View.{items_view};
ghost use Rattle.desk_edits.specs.Values.{distinct_set, kinds_of};

use crate::from_json::FromJson;
use desk_law::{Kind, KindSet};
use serde_json::Value;

impl FromJson for KindSet {
    ghost use Rattle.desk_edits.specs.Values.{kinds_value};

    ghost form = { kinds_value };

    #[tactic(auto, unfolding(crate::specs::Values::kinds_value))]
    fn from_json(value: &Value) -> Option<KindSet> {
        kinds_of(value.as_array()?.as_slice())
    }
}

/// The set of the kinds whose codes the items are, where there is one and none stands twice.
fn kinds_of(items: &[Value]) -> Option<KindSet>
    ensures { result ≡ option_and_then distinct_set (kinds_of (items_view items.now)) }
{
    if items.is_empty() {
        return None;
    }
    let mut kinds = KindSet::new();
    for item in items {
        if !kinds.insert(Kind::from_json(item)?) {
            return None;
        }
    }
    Some(kinds)
}
