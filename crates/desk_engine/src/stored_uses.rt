//! Where a material or a part is used.
ghost use Rattle.std.specs.Prelude.{◌≡◌, ◌<◌, ◌++◌, ◌∷◌, [], true, if◌then◌else◌, length, map, slice_index_or, false, ℕ, IfOk, OnOk};
ghost use Rattle.std.specs.List.{AllByRecursion};
ghost use Rattle.desk_graph.specs.Bill.{IsBillGraph};
ghost use Rattle.desk_graph.specs.Graph.{AreUsers, IsByLabel, label_of};
ghost use Rattle.desk_graph.specs.Reaches.{AreAffected, has_node};
ghost use Rattle.desk_model.specs.Lists.{is_kept, product_row};
ghost use Rattle.desk_findings.specs.Reaches.{is_or_reaches};
ghost use Rattle.desk_history.specs.Sound.{Sound};
ghost use Rattle.desk_scratch.specs.Uses.{lines_to, products_with};
ghost use Rattle.desk_bridge.specs.Bridge.{node_of};
ghost use Rattle.desk_engine.specs.Answers.{AreMarksOf, user_row, with_product};
ghost use Rattle.desk_engine.specs.Stored.{IsStoredOf};

use crate::chained::kept_label;
use crate::node_values::kept_node;
use crate::stored::Stored;
use desk_graph::{Bill, BillLine, NodeId, Steps};
use desk_model::{LineRow, ProductRow};
use desk_rows::Table;
use desk_tables::Tables;
use desk_text::{Code, OutOfMemory};
use std::alloc::Global;
use std::marker::Brand;
use std::sync::ledger::{Blank, Ledger};

/// The lines that lead to a code, in order of parent. It takes a binary search, and a step for each of them.
pub(crate) fn stored_users(
    alloc: Global,
    tables: &Tables,
    stored: &Stored,
    code: &Code,
) -> Result<Vec<LineRow>, OutOfMemory>
    requires sound { Sound tables.now.lists }
    requires stored { IsStoredOf tables.now.lists stored.now }
    requires kept { is_kept tables.now.lists code.now ≡ true }
    ensures { IfOk result (λ lines. lines.items ≡ lines_to tables.now.lists code.now) }
{
    // A bill tells what holds of every bill.
    stored.bill.node_count();
    let node = kept_node(tables, stored, code);
    let users = users_at::<Brand>(Blank::new(1), &stored.bill, node);
    user_rows(alloc, tables, stored, users, code)
}

/// The users of a node, where nobody counts the steps.
fn users_at<L: Ledger>(blank: Blank, bill: &Bill, node: NodeId) -> &[BillLine]
    requires there { node < length bill.now.labels }
    requires name { blank.name ≡ L.name }
    requires parts { blank.parts ≡ L.parts }
    requires some { 0 < L.parts }
    ensures users { AreUsers bill.now.lines node result.now }
    ensures by_label { IsByLabel bill.now.labels result.now }
{
    let mut steps = Steps::<L>::start(blank);
    bill.users(node, &mut steps)
}

/// The lines of these users as the tables keep them.
fn user_rows(
    alloc: Global,
    tables: &Tables,
    stored: &Stored,
    users: &[BillLine],
    code: &Code,
) -> Result<Vec<LineRow>, OutOfMemory>
    requires sound { Sound tables.now.lists }
    requires stored { IsStoredOf tables.now.lists stored.now }
    requires there { AllByRecursion (λ user. user.node < length stored.now.bill.labels) users.now }
    ensures { IfOk result (λ rows. rows.items ≡ map (user_row stored.now.bill.labels code.now) users.now) }
{
    let mut rows = Vec::with_capacity(alloc, users.len())?;
    for user in users {
        let parent = kept_label(tables, stored, user.node);
        rows.push_reserved(LineRow {
            parent,
            child: *code,
            count: user.count,
        });
    }
    Ok(rows)
}

/// The products that reach a code, or are it, in order of code. It takes what walking up from the code takes, and a binary search for
/// each node that is met, where these are few, or for each product.
pub(crate) fn stored_products(
    alloc: Global,
    tables: &Tables,
    stored: &Stored,
    code: &Code,
) -> Result<Vec<ProductRow>, OutOfMemory>
    requires sound { Sound tables.now.lists }
    requires stored { IsStoredOf tables.now.lists stored.now }
    requires kept { is_kept tables.now.lists code.now ≡ true }
    ensures { IfOk result (λ products. products.items ≡ products_with tables.now.lists code.now) }
{
    // A bill tells what holds of every bill.
    stored.bill.node_count();
    let node = kept_node(tables, stored, code);
    let nodes = affected_by(alloc, &stored.bill, node)?;
    // Putting in moves what is behind: it is for few.
    if nodes.len() < tables.products().len() / 16 {
        products_by_node(alloc, tables, stored, nodes.as_slice(), code)
    } else {
        products_by_row(alloc, tables, stored, nodes.as_slice(), code)
    }
}

/// The same by the rows of the products.
fn products_by_row(
    alloc: Global,
    tables: &Tables,
    stored: &Stored,
    nodes: &[NodeId],
    code: &Code,
) -> Result<Vec<ProductRow>, OutOfMemory>
    requires sound { Sound tables.now.lists }
    requires stored { IsStoredOf tables.now.lists stored.now }
    requires kept { is_kept tables.now.lists code.now ≡ true }
    requires nodes { AreAffected stored.now.bill.lines (node_of stored.now.bill.labels code.now ∷ []) nodes.now }
    ensures { IfOk result (λ products. products.items ≡ products_with tables.now.lists code.now) }
{
    // A bill tells what holds of every bill.
    stored.bill.node_count();
    let node = kept_node(tables, stored, code);
    let marks = marks_above(alloc, &stored.bill, nodes, node)?;
    let mut products = Vec::new(alloc);
    for product in tables.products() {
        let holds = does_hold(tables, stored, marks.as_slice(), &product.part, code);
        push_if_holds(&mut products, product, holds)?;
    }
    Ok(products)
}

/// The same by the nodes.
fn products_by_node(
    alloc: Global,
    tables: &Tables,
    stored: &Stored,
    nodes: &[NodeId],
    _code: &Code,
) -> Result<Vec<ProductRow>, OutOfMemory>
    requires sound { Sound tables.now.lists }
    requires stored { IsStoredOf tables.now.lists stored.now }
    requires kept { is_kept tables.now.lists _code.now ≡ true }
    requires nodes { AreAffected stored.now.bill.lines (node_of stored.now.bill.labels _code.now ∷ []) nodes.now }
    ensures { IfOk result (λ products. products.items ≡ products_with tables.now.lists _code.now) }
{
    // A bill tells what holds of every bill.
    stored.bill.node_count();
    let mut products = Table::new(alloc);
    for node in nodes {
        put_product(&mut products, tables, stored, *node)?;
    }
    Ok(Vec::from_slice(alloc, products.as_slice())?)
}

/// Puts in the product of a node, where it is one.
fn put_product(
    products: &mut Table<ProductRow>,
    tables: &Tables,
    stored: &Stored,
    node: NodeId,
) -> Result<(), OutOfMemory>
    requires sound { Sound tables.now.lists }
    requires stored { IsStoredOf tables.now.lists stored.now }
    requires there { node < length stored.now.bill.labels }
    ensures { OnOk result (products.new.rows ≡ with_product (product_row tables.now.lists (label_of stored.now.bill.labels node)) products.old.rows) }
{
    let code = kept_label(tables, stored, node);
    if let Some(product) = tables.product(&code) {
        products.put(*product)?;
    }
    Ok(())
}

/// Appends the product, where it holds what is asked for.
fn push_if_holds(
    list: &mut Vec<ProductRow>,
    product: &ProductRow,
    holds: bool,
) -> Result<(), OutOfMemory>
    ensures { OnOk result (list.new.items ≡ list.old.items ++ (if holds then product.now ∷ [] else [])) }
{
    if holds {
        list.push(*product)?;
    }
    Ok(())
}

/// Whether a part reaches a code, or is it, by the marks of the nodes that do. It takes a binary search.
fn does_hold(tables: &Tables, stored: &Stored, marks: &[bool], part: &Code, _code: &Code) -> bool
    requires sound { Sound tables.now.lists }
    requires stored { IsStoredOf tables.now.lists stored.now }
    requires bill { IsBillGraph stored.now.bill }
    requires part { is_kept tables.now.lists part.now ≡ true }
    requires code { is_kept tables.now.lists _code.now ≡ true }
    requires marks { AreMarksOf stored.now.bill (node_of stored.now.bill.labels _code.now) marks.now }
    ensures { result ≡ is_or_reaches tables.now.lists part.now _code.now }
{
    let node = kept_node(tables, stored, part);
    marks[node as usize]
}

/// Of each node whether it reaches this one, or is it, by the nodes that do.
fn marks_above(
    alloc: Global,
    bill: &Bill,
    nodes: &[NodeId],
    _node: NodeId,
) -> Result<Vec<bool>, OutOfMemory>
    requires there { _node < length bill.now.labels }
    requires nodes { AreAffected bill.now.lines (_node ∷ []) nodes.now }
    ensures { IfOk result (λ marks. AreMarksOf bill.now _node marks.items) }
{
    let count = bill.node_count();
    marks_of(alloc, nodes, count)
}

/// The node and all that reach it.
fn affected_by(alloc: Global, bill: &Bill, node: NodeId) -> Result<Vec<NodeId>, OutOfMemory>
    requires { node < length bill.now.labels }
    ensures { IfOk result (λ nodes. AreAffected bill.now.lines (node ∷ []) nodes.items) }
{
    match bill.affected(alloc, &[node]) {
        Ok(nodes) => Ok(nodes),
        Err(_) => Err(OutOfMemory),
    }
}

/// Of each number below the count whether it is one of the nodes.
fn marks_of(alloc: Global, nodes: &[NodeId], count: usize) -> Result<Vec<bool>, OutOfMemory>
    requires { AllByRecursion (λ node. node < count) nodes.now }
    ensures size { IfOk result (λ marks. length marks.items ≡ count) }
    ensures marks { IfOk result (λ marks. (node : ℕ) → slice_index_or marks.items node false ≡ has_node nodes.now node) }
{
    let mut marks = Vec::from_elem(alloc, false, count)?;
    for node in nodes {
        marks[*node as usize] = true;
    }
    Ok(marks)
}
