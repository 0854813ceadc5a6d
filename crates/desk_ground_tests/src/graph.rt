ghost use Rattle.std.specs.Prelude.{◌≡◌, ◌<◌};
ghost use Rattle.desk_graph.specs.Planned.{IsBillPlan};

use desk_graph::{
    Bill, BillLine, BillPlan, BillView, LineFault, NodeFault, NodeId, Path, PlanFault, PlannedBill,
    Steps,
};
use desk_testing::{check, expect_eq, shows};
use std::alloc::Global;
use std::marker::Brand;
use std::sync::ledger::{Blank, Ledger};
use std::test::Fail;

/// Adds a node. A label of another length than labels have is refused.
fn add(bill: &mut Bill, alloc: Global, label: &[u8]) -> Result<NodeId, NodeFault> {
    if label.is_empty() || label.len() > 40 {
        return Err(NodeFault::Full);
    }
    bill.add_node(alloc, label)
}

/// Sets a line between nodes that are there.
fn set(
    bill: &mut Bill,
    alloc: Global,
    parent: NodeId,
    child: NodeId,
    count: u32,
) -> Result<(), LineFault> {
    let nodes = bill.node_count();
    if parent as usize >= nodes || child as usize >= nodes || count == 0 {
        return Err(LineFault::Full);
    }
    bill.set_line(alloc, parent, child, count)
}

/// Adds a node for each letter, and then these lines from a parent to a child, so many times.
fn build(
    bill: &mut Bill,
    alloc: Global,
    labels: &str,
    lines: &[(NodeId, NodeId, u32)],
) -> Result<(), Fail> {
    for label in labels.as_bytes() {
        add(bill, alloc, &[*label])?;
    }
    for (parent, child, count) in lines {
        set(bill, alloc, *parent, *child, *count)?;
    }
    Ok(())
}

/// The affected nodes of one seed.
fn affected<B: BillView>(bill: &B, alloc: Global, seed: NodeId) -> Result<Vec<NodeId>, Fail> {
    if seed as usize >= bill.node_count() {
        return Err(Fail::new("no node"));
    }
    Ok(bill.affected(alloc, &[seed])?)
}

/// Labels in the order in which they are added, and the answer to each.
const LABELS: [(&str, Result<NodeId, NodeFault>); 4] = [
    ("A", Ok(0)),
    ("B", Ok(1)),
    ("A", Err(NodeFault::Taken)),
    ("AA", Ok(2)),
];

/// The place of the first label whose addition is answered otherwise.
fn first_wrong_label(
    bill: &mut Bill,
    alloc: Global,
    rows: &[(&str, Result<NodeId, NodeFault>)],
) -> Option<usize> {
    for (place, (label, answer)) in rows.iter().enumerate() {
        if add(bill, alloc, label.as_bytes()) != *answer {
            return Some(place);
        }
    }
    None
}

#[test]
fn a_label_is_taken_once(rt: HostRuntime) -> Result<(), Fail> {
    let mut bill = Bill::start(rt.alloc())?;
    expect_eq(&first_wrong_label(&mut bill, rt.alloc(), &LABELS), &None)
}

/// The labels of a bill, its lines, the parent and the child of one that closes a cycle, and its chain.
type Cycle = (
    &'static str,
    &'static [(NodeId, NodeId, u32)],
    (NodeId, NodeId),
    &'static [NodeId],
);

const CYCLES: [Cycle; 3] = [
    ("XYZ", &[(0, 1, 1), (1, 2, 1)], (2, 0), &[0, 1, 2]),
    ("X", &[], (0, 0), &[0]),
    // The chain takes B, which was added after C.
    (
        "MCBA",
        &[(3, 1, 2), (3, 2, 2), (1, 0, 2), (2, 0, 2)],
        (0, 3),
        &[3, 2, 0],
    ),
];

/// The chain of a line, if it would close a cycle.
fn chain_of(bill: &mut Bill, alloc: Global, parent: NodeId, child: NodeId) -> Option<Path> {
    match set(bill, alloc, parent, child, 1) {
        Err(LineFault::Closes { chain }) => Some(chain),
        _ => None,
    }
}

/// Builds a bill, and fails unless the line closes a cycle of this chain.
fn tells_chain(bill: &mut Bill, alloc: Global, cycle: &Cycle) -> Result<(), Fail> {
    let (labels, lines, (parent, child), told) = *cycle;
    build(bill, alloc, labels, lines)?;
    let chain = chain_of(bill, alloc, parent, child);
    let found = chain.as_ref().map(|chain| chain.as_slice());
    expect_eq(&(labels, found), &(labels, Some(told)))
}

#[test]
fn a_line_that_closes_a_cycle_tells_its_chain_by_least_labels(rt: HostRuntime) -> Result<(), Fail> {
    for cycle in &CYCLES {
        let mut bill = Bill::start(rt.alloc())?;
        tells_chain(&mut bill, rt.alloc(), cycle)?;
    }
    Ok(())
}

/// Fails unless a node has just these lines, and these users.
fn both_ends<L: Ledger>(
    blank: Blank,
    bill: &Bill,
    id: NodeId,
    lines: &[BillLine],
    users: &[BillLine],
) -> Result<(), Fail>
    requires name { blank.name ≡ L.name }
    requires parts { blank.parts ≡ L.parts }
    requires some { 0 < L.parts }
{
    if id as usize >= bill.node_count() {
        return Err(Fail::new("no node"));
    }
    let mut steps = Steps::<L>::start(blank);
    let found = (bill.lines(id, &mut steps), bill.users(id, &mut steps));
    expect_eq(&(id, found), &(id, (lines, users)))
}

/// The same, where the steps count for nothing.
fn has_ends(bill: &Bill, id: NodeId, lines: &[BillLine], users: &[BillLine]) -> Result<(), Fail> {
    both_ends::<Brand>(Blank::new(1), bill, id, lines, users)
}

/// Drops a line between nodes that are there, and tells whether there was one.
fn drop_there(bill: &mut Bill, parent: NodeId, child: NodeId) -> bool {
    let nodes = bill.node_count();
    (parent as usize) < nodes && (child as usize) < nodes && bill.drop_line(parent, child)
}

/// Fails unless each line stands at both ends, and one that is dropped at none.
fn stands_at_both_ends(bill: &mut Bill) -> Result<(), Fail> {
    let b = BillLine { node: 0, count: 6 };
    let a = BillLine { node: 1, count: 7 };
    has_ends(bill, 2, &[a, b], &[])?;
    has_ends(bill, 0, &[], &[BillLine { node: 2, count: 6 }])?;
    let dropped = (drop_there(bill, 2, 0), drop_there(bill, 2, 0));
    expect_eq(&dropped, &(true, false))?;
    has_ends(bill, 2, &[a], &[])?;
    has_ends(bill, 0, &[], &[])
}

#[test]
fn a_line_stands_at_both_ends_until_it_is_dropped(rt: HostRuntime) -> Result<(), Fail> {
    let mut bill = Bill::start(rt.alloc())?;
    let lines = [(2, 0, 5), (2, 1, 7), (2, 0, 6)];
    build(&mut bill, rt.alloc(), "BAT", &lines)?;
    stands_at_both_ends(&mut bill)
}

/// Adds a node of this layer.
fn add_to_layer(bill: &mut Bill, alloc: Global, layer: u32, letter: &str) -> Result<NodeId, Fail> {
    let label = format!(in alloc; "{layer}{letter}")?;
    Ok(add(bill, alloc, label.as_bytes())?)
}

/// Adds layers of two nodes, each of which uses both nodes of the layer below.
fn add_layers(bill: &mut Bill, alloc: Global, many: u32) -> Result<(), Fail> {
    let mut below = [add(bill, alloc, b"0a")?, add(bill, alloc, b"0b")?];
    for layer in 1..many {
        let a = add_to_layer(bill, alloc, layer, "a")?;
        let b = add_to_layer(bill, alloc, layer, "b")?;
        for parent in [a, b] {
            set(bill, alloc, parent, below[0], 1)?;
            set(bill, alloc, parent, below[1], 1)?;
        }
        below = [a, b];
    }
    Ok(())
}

/// Adds so many layers, and fails unless a node of the first affects all nodes up to the top one, each once, and a line from the
/// first layer to the top one closes a cycle of a node a layer.
fn goes_through_layers(bill: &mut Bill, alloc: Global, many: u32, top: NodeId) -> Result<(), Fail> {
    add_layers(bill, alloc, many)?;
    let above = affected(bill, alloc, 1)?.len();
    let chain = chain_of(bill, alloc, 0, top).map(|path| path.as_slice().len());
    expect_eq(&(above, chain), &(top as usize + 1, Some(many as usize)))
}

#[test]
fn nodes_of_many_layers_are_affected_once(rt: HostRuntime) -> Result<(), Fail> {
    for (many, top) in [(40, 78), (1_000, 1_998)] {
        let mut bill = Bill::start(rt.alloc())?;
        goes_through_layers(&mut bill, rt.alloc(), many, top)?;
    }
    Ok(())
}

/// Adds nodes until one is refused, and tells why.
fn fill(bill: &mut Bill, alloc: Global) -> Result<NodeFault, Fail> {
    for number in 0..30_000_u32 {
        let label = format!(in alloc; "{number}")?;
        if let Err(fault) = add(bill, alloc, label.as_bytes()) {
            return Ok(fault);
        }
    }
    Err(Fail::new("30,000 nodes are taken"))
}

/// Sets 256 lines of each of 512 nodes.
fn fill_lines(bill: &mut Bill, alloc: Global) -> Result<(), Fail> {
    for parent in 0..512 {
        for child in 1_000..1_256 {
            set(bill, alloc, parent, child, 1)?;
        }
    }
    Ok(())
}

/// Fails unless one line more is too many, a line that is there may be set again, and a line that closes a cycle is told as that.
fn takes_no_more_lines(bill: &mut Bill, alloc: Global) -> Result<(), Fail> {
    let one_more = set(bill, alloc, 512, 1_000, 1);
    check(matches!(one_more, Err(LineFault::Full)), "131,073 lines")?;
    set(bill, alloc, 0, 1_000, 2)?;
    let chain = chain_of(bill, alloc, 1_000, 0).map(|path| path.as_slice().len());
    expect_eq(&chain, &Some(2))
}

#[test]
fn a_bill_takes_24576_nodes_and_131072_lines(rt: HostRuntime) -> Result<(), Fail> {
    let mut bill = Bill::start(rt.alloc())?;
    expect_eq(&fill(&mut bill, rt.alloc())?, &NodeFault::Full)?;
    expect_eq(&bill.node_count(), &24_576)?;
    fill_lines(&mut bill, rt.alloc())?;
    takes_no_more_lines(&mut bill, rt.alloc())
}

/// Fails unless a line that closes a cycle is told so.
fn closing_is_told(bill: &mut Bill, alloc: Global) -> Result<(), Fail> {
    match set(bill, alloc, 0, 0, 1) {
        Err(fault) => shows(alloc, &fault, "the line would close a cycle"),
        Ok(()) => Err(Fail::new("a node is its own child")),
    }
}

/// Fails unless each fault has its words.
fn faults_are_told(alloc: Global) -> Result<(), Fail> {
    let fault = NodeFault::Taken;
    shows(alloc, &fault, "a node has the label")?;
    shows(alloc, &NodeFault::Full, "the bill has 24576 nodes")?;
    shows(alloc, &PlanFault::Node { fault }, "a node has the label")?;
    shows(alloc, &PlanFault::OutOfMemory, "out of memory")?;
    let words = "the bill would have more than 131072 lines";
    shows(alloc, &LineFault::Full, words)?;
    shows(alloc, &LineFault::OutOfMemory, "out of memory")
}

#[test]
fn faults_of_a_bill_are_told(rt: HostRuntime) -> Result<(), Fail> {
    let mut bill = Bill::start(rt.alloc())?;
    add(&mut bill, rt.alloc(), b"A")?;
    closing_is_told(&mut bill, rt.alloc())?;
    faults_are_told(rt.alloc())
}

/// The lines of a node, and the nodes that it affects.
type Told = (Vec<BillLine>, Vec<NodeId>);

/// The lines of a node.
fn lines_of<B: BillView, L: Ledger>(
    blank: Blank,
    bill: &B,
    alloc: Global,
    id: NodeId,
) -> Result<Vec<BillLine>, Fail>
    requires name { blank.name ≡ L.name }
    requires parts { blank.parts ≡ L.parts }
    requires some { 0 < L.parts }
{
    if id as usize >= bill.node_count() {
        return Err(Fail::new("no node"));
    }
    let mut steps = Steps::<L>::start(blank);
    Ok(Vec::from_slice(alloc, bill.lines(id, &mut steps))?)
}

/// What is told of a node. The steps count for nothing.
fn told_of<B: BillView>(bill: &B, alloc: Global, id: NodeId) -> Result<Told, Fail> {
    let lines = lines_of::<B, Brand>(Blank::new(1), bill, alloc, id)?;
    Ok((lines, affected(bill, alloc, id)?))
}

/// What is told of each node.
fn told<B: BillView>(bill: &B, alloc: Global) -> Result<Vec<Told>, Fail> {
    let mut told = Vec::new(alloc);
    for id in 0..bill.node_count() as NodeId {
        told.push(told_of(bill, alloc, id)?)?;
    }
    Ok(told)
}

/// Whether a planned bill tells, of each node, what the bill tells once the plan is committed.
fn tells_what_comes(bill: &mut Bill, alloc: Global, plan: BillPlan) -> Result<bool, Fail>
    requires { IsBillPlan bill.old plan }
{
    let planned = told(&PlannedBill::new(bill, &plan), alloc)?;
    bill.commit(plan);
    Ok(planned == told(bill, alloc)?)
}

/// Whether a bill with a line, where it may be set, and one more node is told as it comes. The bill has what is planned then.
fn set_is_told(
    bill: &mut Bill,
    alloc: Global,
    parent: NodeId,
    child: NodeId,
) -> Result<bool, Fail> {
    let nodes = bill.node_count();
    if parent as usize >= nodes || child as usize >= nodes {
        return Err(Fail::new("no node"));
    }
    match bill.plan_set(alloc, parent, child, 7) {
        Ok(mut plan) => {
            bill.plan_node(&mut plan, b"N")?;
            tells_what_comes(bill, alloc, plan)
        }
        Err(LineFault::Closes { chain: _ }) => Ok(parent <= child),
        Err(fault) => Err(Fail::from(fault)),
    }
}

/// Whether a bill without a line is told as it comes. The bill has what is planned then.
fn drop_is_told(
    bill: &mut Bill,
    alloc: Global,
    parent: NodeId,
    child: NodeId,
) -> Result<bool, Fail> {
    let nodes = bill.node_count();
    if parent as usize >= nodes || child as usize >= nodes {
        return Err(Fail::new("no node"));
    }
    let plan = bill.plan_drop(alloc, parent, child)?;
    tells_what_comes(bill, alloc, plan)
}

/// Fails unless copies of the bill are told as they come, with a line and without it.
fn is_told(bill: &Bill, alloc: Global, parent: NodeId, child: NodeId) -> Result<(), Fail> {
    let with = set_is_told(&mut bill.copied(alloc)?, alloc, parent, child)?;
    let without = drop_is_told(&mut bill.copied(alloc)?, alloc, parent, child)?;
    expect_eq(
        &(parent, child, with, without),
        &(parent, child, true, true),
    )
}

/// Fails unless copies of the bill are told as they come, with each line between these many nodes and without it.
fn each_is_told(bill: &Bill, alloc: Global, nodes: NodeId) -> Result<(), Fail> {
    for parent in 0..nodes {
        for child in 0..nodes {
            is_told(bill, alloc, parent, child)?;
        }
    }
    Ok(())
}

#[test]
fn a_planned_bill_tells_what_the_bill_tells_then(rt: HostRuntime) -> Result<(), Fail> {
    let mut bill = Bill::start(rt.alloc())?;
    add_layers(&mut bill, rt.alloc(), 3)?;
    each_is_told(&bill, rt.alloc(), 6)
}

/// Fails unless a planned node has the next number, and a label that is planned or there is taken.
fn has_next_number(bill: &Bill, plan: &mut BillPlan) -> Result<(), Fail>
    requires { IsBillPlan bill.now plan.old }
{
    let taken = PlanFault::Node {
        fault: NodeFault::Taken,
    };
    let first = bill.plan_node(plan, b"N")?;
    let Err(again) = bill.plan_node(plan, b"N") else {
        return Err(Fail::new("a planned label is planned again"));
    };
    let there = bill.plan_node(plan, b"1a");
    expect_eq(&(first, again, there), &(6, taken, Err(taken)))
}

#[test]
fn planned_nodes_have_the_next_numbers(rt: HostRuntime) -> Result<(), Fail> {
    let mut bill = Bill::start(rt.alloc())?;
    add_layers(&mut bill, rt.alloc(), 3)?;
    let mut plan = bill.plan_nothing(rt.alloc());
    has_next_number(&bill, &mut plan)
}
