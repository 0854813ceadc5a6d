ghost use Rattle.std.specs.Prelude.{◌≡◌, [], ℕ, List, length, option_map, IfOk, IsSome};
ghost use Rattle.desk_text.specs.Code.{code_cmp};
ghost use Rattle.desk_rows.specs.Held.{IsRoomFor};
ghost use Rattle.desk_rows.specs.Rows.{row_of, with_rows};
ghost use Rattle.desk_bridge.specs.Index.{IsIndex, index_with, node_if};

use desk_graph::NodeId;
use desk_rows::{Keyed, Room, Table};
use desk_text::{Code, OutOfMemory};
use std::alloc::Global;
use std::cmp::Ordering;
use std::marker::Model;

/// A code and the node that it labels.
#[derive(Clone, Copy, Debug, PartialEq, Eq)]
pub struct NodeRow {
    /// The code, the row's key.
    pub code: Code,
    /// The node.
    pub node: NodeId,
}

impl Keyed for NodeRow {
    type Key = Code;

    ghost key = { λ row. row.code };

    fn compare(&self, sought: &Code) -> Ordering {
        self.code.cmp(sought)
    }

    fn compare_row(&self, other: &NodeRow) -> Ordering {
        self.code.cmp(&other.code)
    }

    fn copied(&self, _alloc: Global) -> Result<NodeRow, OutOfMemory> {
        Ok(*self)
    }
}

/// The nodes of a bill by their codes. Contracts see the rows in the order of the codes, and how many more need no memory.
#[derive(Drop)]
pub struct NodeIndex {
    rows: Table<NodeRow>,
}

impl Model for NodeIndex {
    ghost use Rattle.desk_rows.specs.Held.{Held};
    ghost use Rattle.desk_bridge.specs.declared.node_index.NodeRow.{NodeRow};

    ghost Value = { Held NodeRow };

    ghost view = { λ index. index.rows };
}

impl NodeIndex {
    /// No nodes. It takes no memory yet.
    pub fn new(alloc: Global) -> NodeIndex
        ensures rows { result.rows ≡ [] }
        ensures index { IsIndex [] result.rows }
    {
        NodeIndex {
            rows: Table::new(alloc),
        }
    }

    /// The node of a code, if one has it. It takes a binary search.
    pub fn node_of(&self, code: &Code) -> Option<NodeId>
        ensures row { result ≡ option_map (λ row. row.node) (row_of (λ row. row.code) code_cmp code.now self.now.rows) }
        ensures node { (labels : List (List ℕ)) → IsIndex labels self.now.rows → result ≡ node_if labels code.now }
    {
        self.found(code)
    }

    /// The node of the row with this code.
    fn found(&self, code: &Code) -> Option<NodeId>
        ensures { result ≡ option_map (λ row. row.node) (row_of (λ row. row.code) code_cmp code.now self.now.rows) }
    {
        match self.rows.get(code) {
            Some(row) => Some(row.node),
            None => None,
        }
    }

    /// Room for so many nodes more.
    pub fn room_for(&self, alloc: Global, more: usize) -> Result<Room<NodeRow>, OutOfMemory>
        ensures { IfOk result (λ room. IsRoomFor more self.now room) }
    {
        self.rows.room_for(alloc, more)
    }

    /// Changes the node of a code that is there. It takes no memory.
    pub(crate) fn set(&mut self, code: &Code, node: NodeId)
        requires { IsSome (row_of (λ row. row.code) code_cmp code.now self.old.rows) }
        ensures { self.new.rows ≡ index_with code.now node self.old.rows }
    {
        let put = self.rows.put(NodeRow { code: *code, node });
        prove!(put.is_ok());
    }

    /// Enters nodes in turn, in room that was made for them. It takes no memory.
    pub fn add_all(&mut self, nodes: Vec<NodeRow>, room: Room<NodeRow>)
        requires { IsRoomFor (length nodes.items) self.old room }
        ensures { self.new.rows ≡ with_rows (λ row. row.code) code_cmp nodes.items self.old.rows }
    {
        self.rows.put_all_ready(nodes, room);
    }

    /// The same index once more.
    pub fn copied(&self, alloc: Global) -> Result<NodeIndex, OutOfMemory>
        ensures { IfOk result (λ index. index.rows ≡ self.now.rows) }
    {
        Ok(NodeIndex {
            rows: self.rows.copied(alloc)?,
        })
    }
}
