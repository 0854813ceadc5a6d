ghost use Rattle.std.specs.Prelude.{◌≡◌, ◌+◌, ◌<◌, ◌&&◌, ◌||◌, ◌∷◌, List, ℕ, [], false, true, IfOk, OnOk, length, map};
ghost use Rattle.desk_graph.specs.Edits.{is_taken, with_line_in, with_node};
ghost use Rattle.desk_history.specs.Sound.{Sound};
ghost use Rattle.desk_model.specs.Lists.{is_kept};
ghost use Rattle.desk_rows.specs.Rows.{with_rows};
ghost use Rattle.desk_text.specs.Code.{code_cmp};
ghost use Rattle.desk_bridge.specs.Bridge.{IsBillOf, node_of};
ghost use Rattle.desk_bridge.specs.Building.{IsFilled, NextLine, row_without_node, with_first};
ghost use Rattle.desk_bridge.specs.Index.{IsIndex};

use crate::node_index::{NodeIndex, NodeRow};
use crate::planning::node_of;
use desk_graph::{Bill, LineFault, NodeId, OutOfMemory};
use desk_model::LineRow;
use desk_tables::Tables;
use desk_text::Code;
use std::alloc::Global;

/// Stands in an index that is being filled for the node of a code that has none yet: no bill has so many.
const NO_NODE: NodeId = 24_576;

/// A bill, and its nodes by their codes.
#[derive(Drop)]
pub struct IndexedBill {
    /// The bill.
    pub bill: Bill,
    /// Its nodes.
    pub index: NodeIndex,
}

/// The bill of the tables, with its nodes by their codes.
pub fn bill_of(alloc: Global, tables: &Tables) -> Result<IndexedBill, OutOfMemory>
    requires { Sound tables.now.lists }
    ensures bill { IfOk result (λ indexed. IsBillOf tables.now.lists indexed.bill) }
    ensures index { IfOk result (λ indexed. IsIndex indexed.bill.labels indexed.index.rows) }
{
    let mut bill = Bill::start(alloc)?;
    let Ok(index) = add_nodes(alloc, tables, &mut bill) else {
        return Err(OutOfMemory);
    };
    add_lines(alloc, tables, &mut bill, &index)?;
    Ok(IndexedBill { bill, index })
}

/// Adds a node of each material and part to an empty bill, and gives the nodes by their codes.
///
/// A bill keeps its nodes in an order in which children stand before their parents, and a line whose child stands behind its parent
/// takes a pass over all nodes. So the nodes are added children first, as far as a guess goes: any order would do.
fn add_nodes(
    alloc: Global,
    tables: &Tables,
    bill: &mut Bill,
) -> Result<NodeIndex, desk_text::OutOfMemory>
    requires sound { Sound tables.now.lists }
    requires start { bill.old ≡ record { labels = []; lines = [] } }
    ensures bill { IfOk result (λ index. IsBillOf (with_first tables.now.lists 0) bill.new) }
    ensures index { IfOk result (λ index. IsIndex bill.new.labels index.rows) }
{
    let links = tables.lists().links(alloc)?;
    let guess = links.guessed_order(alloc)?;
    let mut index = codes_without_nodes(alloc, links.nodes())?;
    add_codes(alloc, tables, bill, &mut index, guess.as_slice());
    add_codes(alloc, tables, bill, &mut index, links.nodes());
    // A bill tells what holds of every bill.
    bill.node_count();
    Ok(index)
}

/// An index with these codes, none of which has a node yet.
fn codes_without_nodes(alloc: Global, codes: &[Code]) -> Result<NodeIndex, desk_text::OutOfMemory>
    ensures { IfOk result (λ index. index.rows ≡ with_rows (λ row. row.code) code_cmp (map row_without_node codes.now) []) }
{
    let rows = rows_without_nodes(alloc, codes)?;
    let mut index = NodeIndex::new(alloc);
    let room = index.room_for(alloc, rows.len())?;
    index.add_all(rows, room);
    Ok(index)
}

/// A row for each of the codes, none of which has a node yet.
fn rows_without_nodes(alloc: Global, codes: &[Code]) -> Result<Vec<NodeRow>, desk_text::OutOfMemory>
    ensures { IfOk result (λ rows. rows.items ≡ map row_without_node codes.now) }
{
    let rows = codes
        .iter()
        .map(|code| NodeRow {
            code: *code,
            node: NO_NODE,
        })
        .collect(alloc)?;
    Ok(rows)
}

/// Adds a node of each of the codes that is kept and has none yet. It takes no memory.
fn add_codes(alloc: Global, tables: &Tables, bill: &mut Bill, index: &mut NodeIndex, codes: &[Code])
    requires sound { Sound tables.now.lists }
    requires filled { IsFilled tables.now.lists bill.old index.old.rows }
    ensures filled { IsFilled tables.now.lists bill.new index.new.rows }
    ensures taken { (other : List ℕ) → is_taken bill.new.labels other ≡ (is_taken bill.old.labels other || (is_kept tables.now.lists other && is_taken codes.now other)) }
{
    for code in codes {
        add_code(alloc, tables, bill, index, code);
    }
}

/// Adds a node of the code, where it is kept and has none yet. It takes a binary search.
fn add_code(alloc: Global, tables: &Tables, bill: &mut Bill, index: &mut NodeIndex, code: &Code)
    requires sound { Sound tables.now.lists }
    requires filled { IsFilled tables.now.lists bill.old index.old.rows }
    ensures filled { IsFilled tables.now.lists bill.new index.new.rows }
    ensures taken { (other : List ℕ) → is_taken bill.new.labels other ≡ (is_taken bill.old.labels other || (is_kept tables.now.lists other && is_taken (code.now ∷ []) other)) }
{
    // A bill tells what holds of every bill.
    bill.node_count();
    if index.node_of(code) == Some(NO_NODE) {
        add_free_code(alloc, tables, bill, index, code);
    }
}

/// Adds a node of a code that is kept and has none yet.
fn add_free_code(
    alloc: Global,
    _tables: &Tables,
    bill: &mut Bill,
    index: &mut NodeIndex,
    code: &Code,
)
    requires sound { Sound _tables.now.lists }
    requires filled { IsFilled _tables.now.lists bill.old index.old.rows }
    requires kept { is_kept _tables.now.lists code.now ≡ true }
    requires free { is_taken bill.old.labels code.now ≡ false }
    ensures bill { bill.new ≡ with_node code.now bill.old }
    ensures filled { IsFilled _tables.now.lists bill.new index.new.rows }
{
    // A bill tells what holds of every bill.
    bill.node_count();
    let node = bill.add_new_node(alloc, code.as_bytes());
    index.set(code, node);
}

/// Enters the lines, one behind the other.
fn add_lines(
    alloc: Global,
    tables: &Tables,
    bill: &mut Bill,
    index: &NodeIndex,
) -> Result<(), OutOfMemory>
    requires sound { Sound tables.now.lists }
    requires bill { IsBillOf (with_first tables.now.lists 0) bill.old }
    requires index { IsIndex bill.old.labels index.now.rows }
    ensures bill { OnOk result (IsBillOf tables.now.lists bill.new) }
    ensures index { OnOk result (IsIndex bill.new.labels index.now.rows) }
{
    let count = tables.lines().len();
    for place in 0..count {
        add_line(alloc, tables, bill, index, place)?;
    }
    Ok(())
}

/// Enters the line that stands at this place, behind those before it.
fn add_line(
    alloc: Global,
    tables: &Tables,
    bill: &mut Bill,
    index: &NodeIndex,
    place: usize,
) -> Result<(), OutOfMemory>
    requires sound { Sound tables.now.lists }
    requires place { place < length tables.now.lists.lines }
    requires bill { IsBillOf (with_first tables.now.lists place) bill.old }
    requires index { IsIndex bill.old.labels index.now.rows }
    ensures bill { OnOk result (IsBillOf (with_first tables.now.lists (place + 1)) bill.new) }
    ensures index { OnOk result (IsIndex bill.new.labels index.now.rows) }
{
    // A bill tells what holds of every bill.
    bill.node_count();
    enter_line(alloc, bill, index, &tables.lines()[place])
}

/// Enters a line.
fn enter_line(
    alloc: Global,
    bill: &mut Bill,
    index: &NodeIndex,
    line: &LineRow,
) -> Result<(), OutOfMemory>
    requires index { IsIndex bill.old.labels index.now.rows }
    requires next { NextLine bill.old line.now }
    ensures bill { OnOk result (bill.new ≡ with_line_in (node_of bill.old.labels line.now.parent) (node_of bill.old.labels line.now.child) line.now.count bill.old) }
    ensures index { OnOk result (IsIndex bill.new.labels index.now.rows) }
{
    let parent = node_of(bill, index, &line.parent);
    let child = node_of(bill, index, &line.child);
    match bill.set_line(alloc, parent, child, line.count) {
        Ok(()) => Ok(()),
        Err(LineFault::Closes { .. }) => unreachable!(),
        Err(LineFault::Full) => unreachable!(),
        Err(LineFault::OutOfMemory) => Err(OutOfMemory),
    }
}
