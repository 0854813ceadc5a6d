ghost use Rattle.std.specs.Prelude.{◌≡◌, ◌<◌, ◌^◌, ℕ, true, [], Some, map, option_map, IfOk, IfSome, OnOk};
ghost use Rattle.desk_graph.specs.Graph.{has_line};
ghost use Rattle.desk_rollup.specs.Changed.{AreNewHops, DoFollow, DoGrow, IsMended};
ghost use Rattle.desk_rollup.specs.Gathered.{HaveNone, all_loads, own_hop, with_each, with_each_line};
ghost use Rattle.desk_rollup.specs.Numbers.{Rises, hop_numbers};
ghost use Rattle.desk_rollup.specs.Places.{IsKnown, known, place_at};
ghost use Rattle.desk_rollup.specs.Values.{rolled_at};
ghost use Rattle.desk_rollup.specs.Weights.{weighed};

use crate::changed_marks::ChangedMarks;
use crate::entry::Entry;
use crate::gathering::Gathering;
use crate::hop::Hop;
use crate::hops::{Hops, are_same};
use crate::load::Load;
use crate::mark::Mark;
use crate::mending::mend_each;
use crate::own::Own;
use crate::rolled::Rolled;
use crate::values::Values;
use crate::weights::with_more;
use desk_graph::{BillLine, NodeId, OutOfMemory};
use std::alloc::Global;

/// What makes the values of one node after another. It keeps the room in which it gathers them, and the marks that have come or gone at
/// the nodes so far.
#[derive(Drop)]
pub struct Roller {
    pub hops: Gathering<Hop>,
    pub loads: Gathering<Load>,
    pub mended: Vec<Hop>,
    pub changed: ChangedMarks,
}

impl Roller {
    /// No room yet, and no mark has changed.
    pub fn new(alloc: Global) -> Roller
        ensures { result.changed ≡ record { marks = []; are_followed = true } }
    {
        Roller {
            hops: Gathering::new(alloc),
            loads: Gathering::new(alloc),
            mended: Vec::new(alloc),
            changed: ChangedMarks::none(alloc),
        }
    }

    /// The values of a node, by its own, new ones or those that are kept, and by those of its children, unless it weighs 2^128 or more.
    /// Where neither it nor a child has a mark or a load, nothing is gathered: that is so in most of a bill of which only the weights are
    /// asked for.
    pub fn roll(
        &mut self,
        alloc: Global,
        node: NodeId,
        own: &Own,
        is_given: bool,
        lines: &[BillLine],
        values: &Values,
    ) -> Result<Option<Rolled>, OutOfMemory>
        requires known { (child : ℕ) → has_line lines.now child ≡ true → IsKnown (place_at values.now.places.now child) values.now.kept.now values.now.new.now child }
        requires order { (child : ℕ) → has_line lines.now child ≡ true → Rises (hop_numbers (known (place_at values.now.places.now child) values.now.kept.now values.now.new.now child).hops) }
        requires kept { Rises (hop_numbers (rolled_at values.now.kept.now node).hops) }
        ensures weight { IfOk result (λ found. option_map (λ rolled. rolled.weight) found
            ≡ weighed (λ child. Some (known (place_at values.now.places.now child) values.now.kept.now values.now.new.now child).weight) own.now.weight lines.now) }
        ensures hops { IfOk result (λ found. IfSome found (λ rolled.
            AreNewHops (λ child. known (place_at values.now.places.now child) values.now.kept.now values.now.new.now child) own.now lines.now is_given self.old.changed (rolled_at values.now.kept.now node).hops rolled.hops)) }
        ensures loads { IfOk result (λ found. IfSome found (λ rolled. rolled.loads
            ≡ all_loads (λ child. known (place_at values.now.places.now child) values.now.kept.now values.now.new.now child) own.now.loads lines.now)) }
        ensures follows { IfOk result (λ found. IfSome found (λ rolled. DoFollow self.new.changed (rolled_at values.now.kept.now node).hops rolled.hops)) }
        ensures grows { DoGrow self.old.changed self.new.changed }
        ensures own { own.now.weight < 2 ^ 128 }
    {
        let Some(sum) = sum_up(own.weight, lines, values) else {
            return Ok(None);
        };
        let weight = sum.weight;
        if sum.has_none && own.marks.is_empty() && own.loads.is_empty() {
            self.hops.clear();
            let hops = self.new_hops(alloc, node, values)?;
            let loads = Vec::new(alloc);
            return Ok(Some(Rolled {
                weight,
                hops,
                loads,
            }));
        }
        let hops = self.rolled_hops(alloc, node, own, is_given, lines, values)?;
        let loads = self.rolled_loads(alloc, own, lines, values)?;
        Ok(Some(Rolled {
            weight,
            hops,
            loads,
        }))
    }

    /// The hops of a node. Where it isn't given own values, those that are kept of it are mended, as long as few marks have changed: at
    /// most nodes above a change that is all there is to do.
    fn rolled_hops(
        &mut self,
        alloc: Global,
        node: NodeId,
        own: &Own,
        is_given: bool,
        lines: &[BillLine],
        values: &Values,
    ) -> Result<Hops, OutOfMemory>
        requires known { (child : ℕ) → has_line lines.now child ≡ true → IsKnown (place_at values.now.places.now child) values.now.kept.now values.now.new.now child }
        requires order { (child : ℕ) → has_line lines.now child ≡ true → Rises (hop_numbers (known (place_at values.now.places.now child) values.now.kept.now values.now.new.now child).hops) }
        requires kept { Rises (hop_numbers (rolled_at values.now.kept.now node).hops) }
        ensures hops { IfOk result (λ hops.
            AreNewHops (λ child. known (place_at values.now.places.now child) values.now.kept.now values.now.new.now child) own.now lines.now is_given self.old.changed (rolled_at values.now.kept.now node).hops hops) }
        ensures follows { IfOk result (λ hops. DoFollow self.new.changed (rolled_at values.now.kept.now node).hops hops) }
        ensures grows { DoGrow self.old.changed self.new.changed }
    {
        if !is_given && self.changed.are_followed() {
            return self.mended_hops(alloc, node, own, lines, values);
        }
        self.hops.clear();
        add_marks(own.marks.as_slice(), &mut self.hops)?;
        add_lines(lines, values, &mut self.hops)?;
        self.new_hops(alloc, node, values)
    }

    /// The hops that are kept of a node, mended: the list itself where all stay as they are.
    fn mended_hops(
        &mut self,
        alloc: Global,
        node: NodeId,
        own: &Own,
        lines: &[BillLine],
        values: &Values,
    ) -> Result<Hops, OutOfMemory>
        requires known { (child : ℕ) → has_line lines.now child ≡ true → IsKnown (place_at values.now.places.now child) values.now.kept.now values.now.new.now child }
        requires order { (child : ℕ) → has_line lines.now child ≡ true → Rises (hop_numbers (known (place_at values.now.places.now child) values.now.kept.now values.now.new.now child).hops) }
        requires kept { Rises (hop_numbers (rolled_at values.now.kept.now node).hops) }
        ensures hops { IfOk result (λ hops. IsMended (λ child. known (place_at values.now.places.now child) values.now.kept.now values.now.new.now child) own.now lines.now self.old.changed.marks
            (rolled_at values.now.kept.now node).hops hops) }
        ensures changed { self.new.changed ≡ self.old.changed }
    {
        if self.changed.as_slice().is_empty() {
            return values.shared_hops(node);
        }
        self.mended.clear();
        self.mended.extend_from_slice(values.kept_hops(node))?;
        let changed = self.changed.as_slice();
        if mend_each(changed, own, lines, values, &mut self.mended)? {
            return values.shared_hops(node);
        }
        Hops::of(alloc, self.mended.as_slice())
    }

    /// The hops that are gathered, as the new ones of a node: the list that is kept of it where it has the same.
    fn new_hops(
        &mut self,
        alloc: Global,
        node: NodeId,
        values: &Values,
    ) -> Result<Hops, OutOfMemory>
        ensures hops { IfOk result (λ hops. hops ≡ self.old.hops) }
        ensures follows { IfOk result (λ hops. DoFollow self.new.changed (rolled_at values.now.kept.now node).hops hops) }
        ensures grows { DoGrow self.old.changed self.new.changed }
    {
        let kept = values.kept_hops(node);
        if are_same(self.hops.as_slice(), kept) {
            return values.shared_hops(node);
        }
        self.changed.follow(kept, self.hops.as_slice())?;
        Hops::of(alloc, self.hops.as_slice())
    }

    /// The loads of a node.
    fn rolled_loads(
        &mut self,
        alloc: Global,
        own: &Own,
        lines: &[BillLine],
        values: &Values,
    ) -> Result<Vec<Load>, OutOfMemory>
        requires { (child : ℕ) → has_line lines.now child ≡ true → IsKnown (place_at values.now.places.now child) values.now.kept.now values.now.new.now child }
        ensures loads { IfOk result (λ loads. loads.items ≡ all_loads (λ child. known (place_at values.now.places.now child) values.now.kept.now values.now.new.now child) own.now.loads lines.now) }
        ensures changed { self.new.changed ≡ self.old.changed }
    {
        self.loads.clear();
        add_each(own.loads.as_slice(), &mut self.loads)?;
        add_lines(lines, values, &mut self.loads)?;
        self.loads.copied(alloc)
    }
}

/// What the lines of a node come to.
#[derive(Clone, Copy, Debug)]
struct Sum {
    /// What the node weighs with its children.
    weight: u128,
    /// Whether no child has a mark or a load.
    has_none: bool,
}

/// What the lines of a node come to, unless it weighs 2^128 or more.
fn sum_up(own: u128, lines: &[BillLine], values: &Values) -> Option<Sum>
    requires { (child : ℕ) → has_line lines.now child ≡ true → IsKnown (place_at values.now.places.now child) values.now.kept.now values.now.new.now child }
    ensures weight { option_map (λ sum. sum.weight) result
        ≡ weighed (λ child. Some (known (place_at values.now.places.now child) values.now.kept.now values.now.new.now child).weight) own lines.now }
    ensures none { IfSome result (λ sum. sum.has_none ≡ true →
        HaveNone (λ child. known (place_at values.now.places.now child) values.now.kept.now values.now.new.now child) lines.now) }
    ensures own { own < 2 ^ 128 }
{
    let mut weight = own;
    let mut has_none = true;
    for line in lines {
        let child = values.of(line.node);
        weight = with_more(weight, line.count, child.weight)?;
        has_none = has_none && child.has_none();
    }
    Some(Sum { weight, has_none })
}

/// Adds own marks.
fn add_marks(marks: &[Mark], into: &mut Gathering<Hop>) -> Result<(), OutOfMemory>
    ensures { OnOk result (into.new ≡ with_each ⟦<Hop as Entry>⟧.number ⟦<Hop as Entry>⟧.joined (map own_hop marks.now) into.old) }
{
    for mark in marks {
        into.add(Hop {
            mark: *mark,
            next: None,
        })?;
    }
    Ok(())
}

/// Adds each of the entries.
fn add_each<E: Entry>(entries: &[E], into: &mut Gathering<E>) -> Result<(), OutOfMemory>
    ensures { OnOk result (into.new ≡ with_each E.number E.joined entries.now into.old) }
{
    for entry in entries {
        into.add(*entry)?;
    }
    Ok(())
}

/// Adds what the children of the lines have.
fn add_lines<E: Entry>(
    lines: &[BillLine],
    values: &Values,
    into: &mut Gathering<E>,
) -> Result<(), OutOfMemory>
    requires { (child : ℕ) → has_line lines.now child ≡ true → IsKnown (place_at values.now.places.now child) values.now.kept.now values.now.new.now child }
    ensures { OnOk result (into.new ≡ with_each_line E.number E.joined E.lifted E.listed
        (λ child. known (place_at values.now.places.now child) values.now.kept.now values.now.new.now child) lines.now into.old) }
{
    for line in lines {
        let child = values.of(line.node);
        into.add_lifted(*line, E::listed(child))?;
    }
    Ok(())
}
