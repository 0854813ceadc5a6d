ghost use Rattle.std.specs.Prelude.{◌≡◌, ◌+◌, ◌<◌, [], IfOk};
ghost use Rattle.desk_graph.specs.Planned.{IsBillPlan, graph_after};
ghost use Rattle.desk_rollup.specs.Laws.{ChangesOne, IsLight};

use desk_graph::{Bill, BillPlan, NodeId, PlannedBill, Steps};
use desk_rollup::{Hop, Load, Mark, Own, RollFault, RollPlan, Rolled, Rollups};
use desk_testing::{expect_eq, shows};
use std::alloc::Global;
use std::marker::{Brand, Model};
use std::sync::ledger::{Blank, Ledger};
use std::test::Fail;

/// A bill with its roll-ups, which are right, and own values of which none is lighter than its loads.
#[derive(Drop)]
struct Desk {
    bill: Bill,
    rollups: Rollups,
}

impl Model for Desk {
    ghost use Rattle.desk_graph.specs.Graph.{Graph};
    ghost use Rattle.desk_rollup.specs.Laws.{AreLight};
    ghost use Rattle.desk_rollup.specs.Plan.{AreRolledUp};

    ghost Value = { Graph };

    ghost view = { λ desk. desk.bill };

    ghost invariant = { λ desk. AreRolledUp desk.bill desk.rollups × AreLight desk.rollups.owns };
}

/// The own values of a node, with a load of 1 where it has a weight.
fn own_of(alloc: Global, node: NodeId, weight: u128, marks: &[Mark]) -> Result<Own, Fail>
    ensures node { IfOk result (λ own. own.node ≡ node) }
    ensures light { IfOk result (λ own. IsLight own) }
{
    let mut loads = Vec::new(alloc);
    if 1 <= weight {
        loads.push(Load { what: 7, amount: 1 })?;
    }
    Ok(Own {
        node,
        weight,
        marks: Vec::from_slice(alloc, marks)?,
        loads,
    })
}

/// How many of the nodes below a number a plan replaces.
fn replaced(plan: &RollPlan, nodes: NodeId) -> usize {
    (0..nodes)
        .filter(|node| plan.rolled(*node).is_some())
        .count()
}

/// What a plan tells of the first node, if it replaces its values: its weight and how many marks it has.
fn told_of_top(plan: &RollPlan) -> Option<(u128, usize)> {
    let values = plan.rolled(0)?;
    Some((values.weight, values.hops.as_slice().len()))
}

/// Fails unless the first node is kept as a plan told, if it told of it.
fn is_kept_as_told(desk: &Desk, told: Option<(u128, usize)>) -> Result<(), Fail> {
    let Some(told) = told else {
        return Ok(());
    };
    let kept = values_of(desk, 0)?;
    expect_eq(&(kept.weight, kept.hops.as_slice().len()), &told)
}

/// Does what was planned on the bill, with new own values of one node, and tells how many nodes were replaced and how many steps that
/// took.
fn enter<L: Ledger>(
    blank: Blank,
    alloc: Global,
    desk: &mut Desk,
    plan: BillPlan,
    own: Own,
) -> Result<Result<usize, RollFault>, Fail>
    requires name { blank.name ≡ L.name }
    requires parts { blank.parts ≡ L.parts }
    requires some { 0 < L.parts }
    requires plan { IsBillPlan desk.old plan }
    requires one { ChangesOne desk.old (graph_after plan desk.old) own.node }
    requires light { IsLight own }
{
    let before = desk.bill.node_count();
    let mut steps = Steps::<L>::start(blank);
    let mut owns = Vec::new(alloc);
    owns.push(own)?;
    let after = PlannedBill::new(&desk.bill, &plan);
    let nodes = after.node_count();
    let rolled = match desk
        .rollups
        .prepare(alloc, &after, owns.as_slice(), &mut steps)
    {
        Ok(rolled) => rolled,
        Err(fault) => return Ok(Err(fault)),
    };
    let count = replaced(&rolled, nodes as NodeId);
    if rolled.nodes().len() != count {
        return Err(Fail::new("a plan tells other nodes than it replaces"));
    }
    let told = told_of_top(&rolled);
    desk.rollups.commit(rolled);
    desk.bill.commit(plan);
    if desk.bill.node_count() < before {
        return Err(Fail::new("a node is lost"));
    }
    is_kept_as_told(desk, told)?;
    Ok(Ok(count))
}

/// Adds a node without own values.
fn add(desk: &mut Desk, alloc: Global, label: &[u8]) -> Result<usize, Fail> {
    if label.is_empty() || label.len() > 40 {
        return Err(Fail::new("no label"));
    }
    let mut plan = desk.bill.plan_nothing(alloc);
    let node = desk.bill.plan_node(&mut plan, label)?;
    let own = own_of(alloc, node, 0, &[])?;
    Ok(enter::<Brand>(Blank::new(1), alloc, desk, plan, own)??)
}

/// Sets a line, with an own weight of its parent and no mark.
fn set(
    desk: &mut Desk,
    alloc: Global,
    parent: NodeId,
    child: NodeId,
    count: u32,
    weight: u128,
) -> Result<usize, Fail> {
    let nodes = desk.bill.node_count();
    if parent as usize >= nodes || child as usize >= nodes || count == 0 {
        return Err(Fail::new("no line"));
    }
    let plan = desk.bill.plan_set(alloc, parent, child, count)?;
    let own = own_of(alloc, parent, weight, &[])?;
    Ok(enter::<Brand>(Blank::new(1), alloc, desk, plan, own)??)
}

/// Gives a node new own values.
fn give(
    desk: &mut Desk,
    alloc: Global,
    node: NodeId,
    weight: u128,
    marks: &[Mark],
) -> Result<Result<usize, RollFault>, Fail> {
    if node as usize >= desk.bill.node_count() {
        return Err(Fail::new("no node"));
    }
    let plan = desk.bill.plan_nothing(alloc);
    let own = own_of(alloc, node, weight, marks)?;
    enter::<Brand>(Blank::new(1), alloc, desk, plan, own)
}

/// Takes a line out.
fn drop_line(desk: &mut Desk, alloc: Global, parent: NodeId, child: NodeId) -> Result<usize, Fail> {
    let nodes = desk.bill.node_count();
    if parent as usize >= nodes || child as usize >= nodes {
        return Err(Fail::new("no line"));
    }
    let plan = desk.bill.plan_drop(alloc, parent, child)?;
    let own = own_of(alloc, parent, 0, &[])?;
    Ok(enter::<Brand>(Blank::new(1), alloc, desk, plan, own)??)
}

/// The chain of a mark, where each line takes a step.
fn chain_in<L: Ledger>(
    blank: Blank,
    alloc: Global,
    desk: &Desk,
    from: NodeId,
    mark: Mark,
) -> Result<Vec<NodeId>, Fail>
    requires name { blank.name ≡ L.name }
    requires parts { blank.parts ≡ L.parts }
    requires some { 0 < L.parts }
{
    let mut steps = Steps::<L>::start(blank);
    Ok(desk.rollups.chain(alloc, from, &mark, &mut steps)?)
}

/// The chain of a mark.
fn chain_of(desk: &Desk, alloc: Global, from: NodeId, mark: Mark) -> Result<Vec<NodeId>, Fail> {
    chain_in::<Brand>(Blank::new(1), alloc, desk, from, mark)
}

/// The values of a node.
fn values_in<L: Ledger>(blank: Blank, desk: &Desk, node: usize) -> Result<&Rolled, Fail>
    requires name { blank.name ≡ L.name }
    requires parts { blank.parts ≡ L.parts }
    requires some { 0 < L.parts }
{
    if node >= desk.bill.node_count() {
        return Err(Fail::new("no node"));
    }
    let mut steps = Steps::<L>::start(blank);
    Ok(desk.rollups.peek(node as NodeId, &mut steps))
}

/// The values of a node.
fn values_of(desk: &Desk, node: usize) -> Result<&Rolled, Fail> {
    values_in::<Brand>(Blank::new(1), desk, node)
}

/// No nodes.
fn start(alloc: Global) -> Result<Desk, Fail> {
    Ok(Desk {
        bill: Bill::start(alloc)?,
        rollups: Rollups::start(alloc)?,
    })
}

/// Adds a node for each letter, and sets these lines from a parent to a child, so many times.
fn build(
    desk: &mut Desk,
    alloc: Global,
    labels: &str,
    lines: &[(NodeId, NodeId, u32)],
) -> Result<(), Fail> {
    for label in labels.as_bytes() {
        add(desk, alloc, &[*label])?;
    }
    for (parent, child, count) in lines {
        set(desk, alloc, *parent, *child, *count, 0)?;
    }
    Ok(())
}

/// P has A twice and B three times, these have C, and C has M.
const DIAMOND: [(NodeId, NodeId, u32); 5] = [(0, 1, 2), (0, 2, 3), (1, 3, 1), (2, 3, 1), (3, 4, 1)];

/// P has Z and B, and these have M.
const TWO_WAYS: [(NodeId, NodeId, u32); 4] = [(0, 1, 1), (0, 2, 1), (1, 3, 1), (2, 3, 1)];

/// Fails unless these nodes lead from the first one to the mark.
fn leads_to(desk: &Desk, alloc: Global, mark: Mark, nodes: &[NodeId]) -> Result<(), Fail> {
    let chain = chain_of(desk, alloc, 0, mark)?;
    expect_eq(&chain.as_slice(), &nodes)
}

/// Fails unless the first node weighs this and has one mark, to which these nodes lead.
fn has_at_top(
    desk: &Desk,
    alloc: Global,
    weight: u128,
    mark: Mark,
    nodes: &[NodeId],
) -> Result<(), Fail> {
    let top = values_of(desk, 0)?;
    let hop = Hop {
        mark,
        next: nodes.get(1).copied(),
    };
    expect_eq(
        &(top.weight, top.hops.as_slice()),
        &(weight, [hop].as_slice()),
    )?;
    leads_to(desk, alloc, mark, nodes)
}

/// Fails unless a mark at the end of the diamond is led to over one side, and over the other once the line to that side is dropped.
fn takes_another_way(desk: &mut Desk, alloc: Global) -> Result<(), Fail> {
    build(desk, alloc, "PABCM", &DIAMOND)?;
    let mark = Mark { node: 4, what: 1 };
    expect_eq(&give(desk, alloc, 4, 1_000_000, &[mark])?, &Ok(5))?;
    has_at_top(desk, alloc, 5_000_000, mark, &[0, 1, 3, 4])?;
    expect_eq(&drop_line(desk, alloc, 0, 1)?, &1)?;
    has_at_top(desk, alloc, 3_000_000, mark, &[0, 2, 3, 4])
}

#[test]
fn a_mark_keeps_one_way_and_takes_another_where_its_line_is_dropped(
    rt: HostRuntime,
) -> Result<(), Fail> {
    let mut desk = start(rt.alloc())?;
    takes_another_way(&mut desk, rt.alloc())
}

/// Fails unless a weight of 2 to the 127 at the end of the diamond is too large at the first node.
fn is_too_large(desk: &mut Desk, alloc: Global) -> Result<(), Fail> {
    build(desk, alloc, "PABCM", &DIAMOND)?;
    let told = give(desk, alloc, 4, 1 << 127, &[])?;
    expect_eq(&told, &Err(RollFault::WeightTooLarge { node: 0 }))
}

#[test]
fn a_weight_of_2_to_the_127_counted_twice_is_too_large(rt: HostRuntime) -> Result<(), Fail> {
    let mut desk = start(rt.alloc())?;
    is_too_large(&mut desk, rt.alloc())
}

/// Fails unless of three nodes that weigh too much, each a user of the one before, the second is told, which has the least label.
fn tells_the_least_label(desk: &mut Desk, alloc: Global) -> Result<(), Fail> {
    build(desk, alloc, "MBAZ", &[(1, 0, 2), (2, 1, 1), (3, 2, 1)])?;
    let told = give(desk, alloc, 0, 1 << 127, &[])?;
    expect_eq(&told, &Err(RollFault::WeightTooLarge { node: 2 }))
}

#[test]
fn of_nodes_that_weigh_too_much_the_one_with_the_least_label_is_told(
    rt: HostRuntime,
) -> Result<(), Fail> {
    let mut desk = start(rt.alloc())?;
    tells_the_least_label(&mut desk, rt.alloc())
}

/// Fails unless a mark of the last node is led to over the child whose label is B.
fn takes_the_least_label(desk: &mut Desk, alloc: Global) -> Result<(), Fail> {
    build(desk, alloc, "PZBM", &TWO_WAYS)?;
    let mark = Mark { node: 3, what: 1 };
    expect_eq(&give(desk, alloc, 3, 1, &[mark])?, &Ok(4))?;
    has_at_top(desk, alloc, 2, mark, &[0, 2, 3])
}

#[test]
fn the_next_of_a_mark_is_the_child_with_the_least_label(rt: HostRuntime) -> Result<(), Fail> {
    let mut desk = start(rt.alloc())?;
    takes_the_least_label(&mut desk, rt.alloc())
}

/// Fails unless a copy has the values of all nodes, and keeps them where what it is a copy of gets others.
fn is_copied(desk: &mut Desk, alloc: Global) -> Result<(), Fail> {
    build(desk, alloc, "PABCM", &DIAMOND)?;
    let mark = Mark { node: 4, what: 1 };
    expect_eq(&give(desk, alloc, 4, 1_000_000, &[mark])?, &Ok(5))?;
    let copy = Desk {
        bill: desk.bill.copied(alloc)?,
        rollups: desk.rollups.copied(alloc)?,
    };
    expect_eq(&give(desk, alloc, 4, 2_000_000, &[])?, &Ok(5))?;
    has_at_top(&copy, alloc, 5_000_000, mark, &[0, 1, 3, 4])?;
    expect_eq(&values_of(desk, 0)?.weight, &10_000_000)
}

#[test]
fn a_copy_keeps_its_values(rt: HostRuntime) -> Result<(), Fail> {
    let mut desk = start(rt.alloc())?;
    is_copied(&mut desk, rt.alloc())
}

/// P has A and C, A has B, and B and C have M.
const TWO_LEVELS: [(NodeId, NodeId, u32); 5] = [
    (0, 1, 1),
    (0, 4, 1),
    (1, 2, 1),
    (2, 3, 1),
    (4, 3, 1),
];

/// So many marks of a node.
fn marks_of(alloc: Global, node: NodeId, count: u32) -> Result<Vec<Mark>, Fail> {
    let mut marks = Vec::new(alloc);
    for what in 0..count {
        marks.push(Mark { node, what })?;
    }
    Ok(marks)
}

/// Fails unless so many marks of M, which come in the place of all that it had, are those of the first node.
fn come_to_top(desk: &mut Desk, alloc: Global, count: u32) -> Result<(), Fail> {
    let marks = marks_of(alloc, 3, count)?;
    expect_eq(&give(desk, alloc, 3, 1, marks.as_slice())?, &Ok(5))?;
    expect_eq(
        &values_of(desk, 0)?.hops.as_slice().len(),
        &(count as usize),
    )?;
    if count > 0 {
        leads_to(
            desk,
            alloc,
            Mark {
                node: 3,
                what: count - 1,
            },
            &[0, 1, 2, 3],
        )?;
    }
    Ok(())
}

/// Fails unless marks come and go at the first node as they do two levels below it, be they few or many.
fn come_and_go(desk: &mut Desk, alloc: Global) -> Result<(), Fail> {
    build(desk, alloc, "PABMC", &TWO_LEVELS)?;
    for count in [1, 0, 3, 2, 40, 38, 1, 0] {
        come_to_top(desk, alloc, count)?;
    }
    Ok(())
}

#[test]
fn marks_come_and_go_above_as_they_do_below(rt: HostRuntime) -> Result<(), Fail> {
    let mut desk = start(rt.alloc())?;
    come_and_go(&mut desk, rt.alloc())
}

/// Adds forty layers of two nodes and two nodes below them, each of which has both nodes of the next layer but for the last.
fn add_layers(desk: &mut Desk, alloc: Global) -> Result<(), Fail> {
    for node in 0..82_u8 {
        add(desk, alloc, &[node])?;
    }
    for line in 0..156_u32 {
        let layer = line / 4;
        let (parent, child) = (2 * layer + line % 2, 2 * layer + 2 + line / 2 % 2);
        set(desk, alloc, parent, child, 1, 0)?;
    }
    Ok(())
}

/// Fails unless a line to a weight below the last layer moves all nodes above, and the first weighs as much as there are ways.
fn moves_all(desk: &mut Desk, alloc: Global) -> Result<(), Fail> {
    add_layers(desk, alloc)?;
    expect_eq(&give(desk, alloc, 80, 1, &[])?, &Ok(1))?;
    expect_eq(&set(desk, alloc, 78, 80, 1, 0)?, &79)?;
    expect_eq(&values_of(desk, 0)?.weight, &(1 << 38))
}

#[test]
fn a_line_at_the_bottom_of_40_layers_moves_all(rt: HostRuntime) -> Result<(), Fail> {
    let mut desk = start(rt.alloc())?;
    moves_all(&mut desk, rt.alloc())
}

/// How many nodes the plain bill has.
const COUNT: usize = 12;

/// A node of the plain bill: its own weight, whether it has a mark, and how many it takes of each node with a greater number.
#[derive(Clone, Copy)]
struct PlainNode {
    weight: u128,
    is_marked: bool,
    counts: [u32; COUNT],
}

/// A node that has nothing.
const NOTHING: PlainNode = PlainNode {
    weight: 0,
    is_marked: false,
    counts: [0; COUNT],
};

/// The place of a node in the order of labels.
fn rank(node: usize) -> u8 {
    (node % COUNT * 5 % COUNT) as u8
}

/// What each node has, from the last node on: its own of these and, for each of its lines, count times what the child has.
fn plain_sums(nodes: &[PlainNode; COUNT], own: [u128; COUNT]) -> [u128; COUNT] {
    let mut sums = own;
    for at in 0..COUNT {
        let node = COUNT - 1 - at;
        for child in 0..COUNT {
            let count = u128::from(nodes[node].counts[child]);
            sums[node] = sums[node].saturating_add(sums[child].saturating_mul(count));
        }
    }
    sums
}

/// Of the children that have a mark, by how often each node has it, the one with the least label.
fn plain_next(node: &PlainNode, marks: &[u128; COUNT]) -> Option<NodeId> {
    (0..COUNT as NodeId)
        .filter(|child| {
            let place = *child as usize % COUNT;
            node.counts[place] > 0 && marks[place] > 0
        })
        .min_by_key(|child| rank(*child as usize))
}

/// The hop of a mark at a node, if the node has the mark.
fn plain_hop(nodes: &[PlainNode; COUNT], node: usize, mark: usize) -> Option<Hop> {
    let (node, mark) = (node % COUNT, mark % COUNT);
    let mut own = [0_u128; COUNT];
    own[mark] = u128::from(nodes[mark].is_marked);
    let marks = plain_sums(nodes, own);
    if marks[node] == 0 {
        return None;
    }
    let next = plain_next(&nodes[node], &marks);
    Some(Hop {
        mark: Mark {
            node: mark as NodeId,
            what: 1,
        },
        next: if own[node] > 0 { None } else { next },
    })
}

/// Whether the hops that are kept of a node are those that come out from scratch.
fn has_plain_hops(desk: &Desk, nodes: &[PlainNode; COUNT], node: usize) -> Result<bool, Fail> {
    let mut hops = values_of(desk, node)?.hops.as_slice().iter();
    for mark in 0..COUNT {
        if let Some(hop) = plain_hop(nodes, node, mark)
            && hops.next() != Some(&hop)
        {
            return Ok(false);
        }
    }
    Ok(hops.next().is_none())
}

/// Whether what is kept of each node comes out from scratch.
fn is_as_from_scratch(desk: &Desk, nodes: &[PlainNode; COUNT]) -> Result<bool, Fail> {
    let mut own_weights = [0_u128; COUNT];
    let mut own_loads = [0_u128; COUNT];
    for node in 0..COUNT {
        own_weights[node] = nodes[node].weight;
        own_loads[node] = u128::from(nodes[node].weight > 0);
    }
    let weights = plain_sums(nodes, own_weights);
    let loads = plain_sums(nodes, own_loads);
    for node in 0..COUNT {
        let values = values_of(desk, node)?;
        let load = Load {
            what: 7,
            amount: loads[node],
        };
        let has_load = match values.loads.as_slice() {
            [] => load.amount == 0,
            [only] => *only == load,
            _ => false,
        };
        if !has_load || values.weight != weights[node] || !has_plain_hops(desk, nodes, node)? {
            return Ok(false);
        }
    }
    Ok(true)
}

/// Makes one edit on both: a line that is set or dropped, or new own values with a mark.
fn edit_both(
    desk: &mut Desk,
    alloc: Global,
    nodes: &mut [PlainNode; COUNT],
    number: u64,
) -> Result<(), Fail> {
    let parent = (number % 12) as usize;
    let child = parent + 1 + (number / 12 % 11) as usize;
    let weight = u128::from(number / 132 % 50);
    let (parent_id, child_id) = (parent as NodeId, child as NodeId);
    let sort = number / 6_600 % 4;
    nodes[parent].is_marked = sort == 0 || child >= COUNT;
    nodes[parent].weight = weight;
    if nodes[parent].is_marked {
        let mark = Mark {
            node: parent_id,
            what: 1,
        };
        give(desk, alloc, parent_id, weight, &[mark])??;
    } else if sort == 1 {
        drop_line(desk, alloc, parent_id, child_id)?;
        nodes[parent].weight = 0;
        nodes[parent].counts[child] = 0;
    } else {
        let count = (number / 26_400 % 3) as u32 + 1;
        set(desk, alloc, parent_id, child_id, count, weight)?;
        nodes[parent].counts[child] = count;
    }
    Ok(())
}

/// The number of the next edit.
fn number_behind(number: u64) -> u64 {
    let number = number ^ number << 13;
    let number = number ^ number >> 7;
    number ^ number << 17
}

/// The first of a thousand edits that leaves something else than comes out from scratch.
fn first_wrong_edit(desk: &mut Desk, alloc: Global) -> Result<Option<u32>, Fail> {
    let mut nodes = [NOTHING; COUNT];
    let mut number = 88_172_645_463_325_252;
    for edit in 0..1_000 {
        number = number_behind(number);
        edit_both(desk, alloc, &mut nodes, number)?;
        if !is_as_from_scratch(desk, &nodes)? {
            return Ok(Some(edit));
        }
    }
    Ok(None)
}

/// Adds the nodes of the plain bill, and fails unless each of a thousand edits leaves what comes out from scratch.
fn are_as_from_scratch(desk: &mut Desk, alloc: Global) -> Result<(), Fail> {
    for node in 0..COUNT {
        add(desk, alloc, &[rank(node)])?;
    }
    expect_eq(&first_wrong_edit(desk, alloc)?, &None)
}

#[test]
fn after_each_of_a_thousand_edits_all_is_as_from_scratch(rt: HostRuntime) -> Result<(), Fail> {
    let mut desk = start(rt.alloc())?;
    are_as_from_scratch(&mut desk, rt.alloc())
}

#[test]
fn faults_of_values_are_told(rt: HostRuntime) -> Result<(), Fail> {
    let words = "a node would weigh 2^128 or more";
    shows(rt.alloc(), &RollFault::WeightTooLarge { node: 7 }, words)?;
    let words = "the nodes would have more than 4194304 marks";
    shows(rt.alloc(), &RollFault::MarksFull, words)?;
    shows(rt.alloc(), &RollFault::OutOfMemory, "out of memory")
}
