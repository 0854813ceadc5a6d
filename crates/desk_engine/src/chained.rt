//! The chain to a finding by its hops, and what an article holds.
ghost use Rattle.std.specs.Prelude.{◌≡◌, ◌+◌, ◌<◌, ◌≤◌, true, length, map, IfOk};
ghost use Rattle.std.specs.List.{AllByRecursion, list_any};
ghost use Rattle.desk_text.specs.Code.{same_code};
ghost use Rattle.desk_graph.specs.Graph.{label_of};
ghost use Rattle.desk_model.specs.Lists.{is_part};
ghost use Rattle.desk_findings.specs.Above.{content};
ghost use Rattle.desk_findings.specs.Chain.{chain};
ghost use Rattle.desk_findings.specs.Findings.{findings, is_in};
ghost use Rattle.desk_findings.specs.Numbering.{is_found};
ghost use Rattle.desk_history.specs.Sound.{Sound};
ghost use Rattle.desk_rollup.specs.Chain.{hop_chain as node_chain};
ghost use Rattle.desk_rollup.specs.Numbers.{mark_number};
ghost use Rattle.desk_scratch.specs.LookUps.{IsHeldAbove, finding_of, holder_of};
ghost use Rattle.desk_scratch.specs.Steps.{chain_line_count};
ghost use Rattle.desk_bridge.specs.Bridge.{place_of};
ghost use Rattle.desk_bridge.specs.Numbers.{finding_number};
ghost use Rattle.desk_engine.specs.Stored.{IsStoredOf};

use crate::node_values::{amount_in, kept_node, values_of};
use crate::stored::Stored;
use crate::told::label_at;
use desk_graph::{NodeId, Steps};
use desk_model::{Codes, ListOf};
use desk_rollup::{Mark, Rollups};
use desk_scratch::Finding;
use desk_tables::Tables;
use desk_text::{Code, OutOfMemory};
use std::alloc::Global;
use std::sync::ledger::Ledger;

/// The chain from a part to what one of its findings is on. It takes a step for each line, and there a binary search among the hops.
pub(crate) fn stored_chain<L: Ledger>(
    alloc: Global,
    tables: &Tables,
    stored: &Stored,
    part: &Code,
    finding: &Finding,
    steps: &mut Steps<L>,
) -> Result<Codes, OutOfMemory>
    requires sound { Sound tables.now.lists }
    requires stored { IsStoredOf tables.now.lists stored.now }
    requires part { is_part tables.now.lists part.now ≡ true }
    requires found { is_in (finding_of finding.now) (findings tables.now.lists part.now) ≡ true }
    ensures codes { IfOk result (λ codes. codes ≡ chain tables.now.lists part.now (holder_of (finding_of finding.now))) }
    ensures steps { IfOk result (λ codes. steps.new ≡ steps.old + chain_line_count codes) }
{
    // A bill tells what holds of every bill.
    stored.bill.node_count();
    let from = kept_node(tables, stored, part);
    let mark = mark_of(tables, stored, finding);
    let nodes = chain_from(alloc, &stored.rollups, from, &mark, steps)?;
    codes_at(alloc, tables, stored, nodes.as_slice())
}

/// The chain from a node to a mark of it.
fn chain_from<L: Ledger>(
    alloc: Global,
    rollups: &Rollups,
    from: NodeId,
    mark: &Mark,
    steps: &mut Steps<L>,
) -> Result<Vec<NodeId>, OutOfMemory>
    ensures nodes { IfOk result (λ nodes. nodes.items ≡ node_chain rollups.now.rolled (mark_number mark.now) from) }
    ensures steps { IfOk result (λ nodes. steps.new + 1 ≡ steps.old + length nodes.items) }
{
    match rollups.chain(alloc, from, mark, steps) {
        Ok(nodes) => Ok(nodes),
        Err(_) => Err(OutOfMemory),
    }
}

/// The codes of these nodes.
fn codes_at(
    alloc: Global,
    tables: &Tables,
    stored: &Stored,
    nodes: &[NodeId],
) -> Result<Codes, OutOfMemory>
    requires sound { Sound tables.now.lists }
    requires stored { IsStoredOf tables.now.lists stored.now }
    requires there { AllByRecursion (λ node. node < length stored.now.bill.labels) nodes.now }
    ensures { IfOk result (λ codes. codes ≡ map (label_of stored.now.bill.labels) nodes.now) }
{
    let mut codes = Vec::with_capacity(alloc, nodes.len())?;
    for node in nodes {
        codes.push_reserved(kept_label(tables, stored, *node));
    }
    Ok(ListOf::new(codes))
}

/// The code of a node.
pub(crate) fn kept_label(_tables: &Tables, stored: &Stored, node: NodeId) -> Code
    requires sound { Sound _tables.now.lists }
    requires stored { IsStoredOf _tables.now.lists stored.now }
    requires there { node < length stored.now.bill.labels }
    ensures { result ≡ label_of stored.now.bill.labels node }
{
    label_at(&stored.bill, node)
}

/// The mark of a finding.
fn mark_of(tables: &Tables, stored: &Stored, finding: &Finding) -> Mark
    requires sound { Sound tables.now.lists }
    requires stored { IsStoredOf tables.now.lists stored.now }
    requires found { is_found tables.now.lists (finding_of finding.now) ≡ true }
    ensures { mark_number result ≡ finding_number stored.now.bill.labels stored.now.names (finding_of finding.now) }
{
    match finding {
        Finding::Over { material, rule } => Mark {
            node: kept_node(tables, stored, material),
            what: u32::from(rule.number()),
        },
        Finding::Above { article, substance } => Mark {
            node: kept_node(tables, stored, article),
            what: name_of(stored.names.as_slice(), substance),
        },
    }
}

/// The first place of a substance that is named. It takes a pass over the names.
pub(crate) fn name_of(names: &[Code], substance: &Code) -> u32
    requires few { length names.now ≤ 4294967296 }
    requires named { list_any (λ listed. same_code listed substance.now) names.now ≡ true }
    ensures { result ≡ place_of names.now substance.now }
{
    for place in 0..names.len() {
        if names[place].cmp(substance).is_eq() {
            return place as u32;
        }
    }
    unreachable!()
}

/// What an article holds of a candidate that is above in it, in micrograms. It takes a pass over the names and over the article's loads.
pub(crate) fn stored_content(
    tables: &Tables,
    stored: &Stored,
    article: &Code,
    substance: &Code,
) -> u128
    requires sound { Sound tables.now.lists }
    requires stored { IsStoredOf tables.now.lists stored.now }
    requires held { IsHeldAbove tables.now.lists article.now substance.now }
    ensures { result ≡ content tables.now.lists article.now substance.now }
{
    let values = values_of(tables, stored, article);
    let what = name_of(stored.names.as_slice(), substance);
    amount_in(values.loads.as_slice(), what)
}
