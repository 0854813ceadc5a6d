//! What is stored of a material or a part.
ghost use Rattle.std.specs.Prelude.{◌≡◌, ◌+◌, ◌<◌, ◌==◌, true, find, length};
ghost use Rattle.desk_graph.specs.Graph.{label_of};
ghost use Rattle.desk_model.specs.Lists.{is_kept, is_part};
ghost use Rattle.desk_findings.specs.Mass.{mass};
ghost use Rattle.desk_history.specs.Sound.{Sound};
ghost use Rattle.desk_rollup.specs.Values.{carried_by_node};
ghost use Rattle.desk_bridge.specs.Bridge.{node_of};
ghost use Rattle.desk_engine.specs.Answers.{AreValuesAt};
ghost use Rattle.desk_engine.specs.Stored.{IsStoredOf};

use crate::stored::Stored;
use desk_graph::{NodeId, Steps};
use desk_rollup::{Load, Rolled};
use desk_tables::Tables;
use desk_text::Code;
use std::marker::Brand;
use std::sync::ledger::{Blank, Ledger};

/// The node of a kept code. It takes a binary search.
pub(crate) fn kept_node(_tables: &Tables, stored: &Stored, code: &Code) -> NodeId
    requires stored { IsStoredOf _tables.now.lists stored.now }
    requires kept { is_kept _tables.now.lists code.now ≡ true }
    ensures node { result ≡ node_of stored.now.bill.labels code.now }
    ensures there { result < length stored.now.bill.labels }
    ensures label { label_of stored.now.bill.labels result ≡ code.now }
{
    let Some(node) = stored.index.node_of(code) else {
        unreachable!();
    };
    node
}

/// What the node of a kept code has together with all that it is made of. It takes a binary search and one step.
pub(crate) fn peek_values<'a, L: Ledger>(
    tables: &Tables,
    stored: &'a Stored,
    code: &Code,
    steps: &mut Steps<L>,
) -> &'a Rolled
    requires sound { Sound tables.now.lists }
    requires stored { IsStoredOf tables.now.lists stored.now }
    requires kept { is_kept tables.now.lists code.now ≡ true }
    ensures values { AreValuesAt tables.now.lists stored.now.bill.labels stored.now.names code.now result.now }
    ensures steps { steps.new ≡ steps.old + 1 }
{
    // A bill tells what holds of every bill.
    stored.bill.node_count();
    let node = kept_node(tables, stored, code);
    stored.rollups.peek(node, steps)
}

/// What the node of a kept code has together with all that it is made of. It takes a binary search.
pub(crate) fn values_of<'a>(tables: &Tables, stored: &'a Stored, code: &Code) -> &'a Rolled
    requires sound { Sound tables.now.lists }
    requires stored { IsStoredOf tables.now.lists stored.now }
    requires kept { is_kept tables.now.lists code.now ≡ true }
    ensures { AreValuesAt tables.now.lists stored.now.bill.labels stored.now.names code.now result.now }
{
    values_uncounted::<Brand>(Blank::new(1), tables, stored, code)
}

/// The same, with a ledger for the step that nobody looks at.
fn values_uncounted<'a, L: Ledger>(
    blank: Blank,
    tables: &Tables,
    stored: &'a Stored,
    code: &Code,
) -> &'a Rolled
    requires sound { Sound tables.now.lists }
    requires stored { IsStoredOf tables.now.lists stored.now }
    requires kept { is_kept tables.now.lists code.now ≡ true }
    requires name { blank.name ≡ L.name }
    requires parts { blank.parts ≡ L.parts }
    requires some { 0 < L.parts }
    ensures { AreValuesAt tables.now.lists stored.now.bill.labels stored.now.names code.now result.now }
{
    let mut steps = Steps::<L>::start(blank);
    peek_values(tables, stored, code, &mut steps)
}

/// What a part weighs, in micrograms. It takes a binary search.
pub(crate) fn stored_mass(tables: &Tables, stored: &Stored, part: &Code) -> u128
    requires sound { Sound tables.now.lists }
    requires stored { IsStoredOf tables.now.lists stored.now }
    requires part { is_part tables.now.lists part.now ≡ true }
    ensures { result ≡ mass tables.now.lists part.now }
{
    values_of(tables, stored, part).weight
}

/// How much of a substance is among these loads. It takes a pass over them.
pub(crate) fn amount_in(loads: &[Load], what: u32) -> u128
    ensures { result ≡ carried_by_node loads.now what }
{
    match load_in(loads, what) {
        Some(load) => load.amount,
        None => 0,
    }
}

/// The load of a substance.
fn load_in(loads: &[Load], what: u32) -> Option<Load>
    ensures { result ≡ find (λ load. load.what == what) loads.now }
{
    loads.iter().copied().find(|load| load.what == what)
}
