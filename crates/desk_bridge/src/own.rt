ghost use Rattle.std.specs.Prelude.{◌≡◌, ◌+◌, ◌≤◌, ◌==◌, ℕ, List, [], true, false, IfOk, OnOk, filter, length, map, nat_lt, if◌then◌else◌};
ghost use Rattle.std.specs.List.{All, list_any};
ghost use Rattle.desk_text.specs.Code.{same_code};
ghost use Rattle.desk_law.specs.Rule.{restricting_rules};
ghost use Rattle.desk_graph.specs.Graph.{label_of};
ghost use Rattle.desk_rollup.specs.Values.{amount_of};
ghost use Rattle.desk_model.specs.Lists.{is_material};
ghost use Rattle.desk_model.specs.declared.limits.TheConstants.{CONTENT_LIMIT};
ghost use Rattle.desk_findings.specs.Articles.{is_article, is_article_sort};
ghost use Rattle.desk_findings.specs.Share.{is_over_limit};
ghost use Rattle.desk_history.specs.Sound.{IsConsistent};
ghost use Rattle.desk_bridge.specs.AfterEdit.{IsOwnOf};
ghost use Rattle.desk_bridge.specs.Bridge.{place_of};
ghost use Rattle.desk_bridge.specs.Numbers.{AreNames, finding_number};
ghost use Rattle.desk_bridge.specs.Own.{amount_held, holding_mark, rule_mark};

use crate::holdings::{Holding, above_in};
use crate::pushing::push_if;
use crate::tables_after::TablesAfter;
use desk_graph::NodeId;
use desk_law::Rule;
use desk_model::{MaterialRow, PartSort};
use desk_rollup::{Load, Mark, Own};
use desk_text::{Code, OutOfMemory};
use std::alloc::Global;

/// What the node of this code has of its own. For an article it takes a pass over what the materials of its lines hold, and over the names
/// where something is above in it.
pub fn own_of<'a>(
    alloc: Global,
    lists: &TablesAfter<'a>,
    names: &[Code],
    code: &Code,
    node: NodeId,
) -> Result<Own, OutOfMemory>
    requires consistent { IsConsistent lists.now }
    requires few { length lists.now.lines ≤ 131072 }
    requires named { AreNames lists.now names.now }
    ensures node { IfOk result (λ own. own.node ≡ node) }
    ensures own { IfOk result (λ own. (labels : List (List ℕ)) → place_of labels code.now ≡ node →
        IsOwnOf lists.now (finding_number labels names.now) (label_of names.now) code.now own) }
{
    match lists.material(code) {
        Some(row) => own_of_material(alloc, lists, row, node),
        None => own_of_part(alloc, lists, names, code, node),
    }
}

/// What a material has of its own.
fn own_of_material<'a>(
    alloc: Global,
    lists: &TablesAfter<'a>,
    row: &MaterialRow,
    node: NodeId,
) -> Result<Own, OutOfMemory>
    requires { length row.now.substances ≤ CONTENT_LIMIT }
    ensures { IfOk result (λ own. own ≡ record {
      node = node;
      weight = row.now.mass;
      marks = map (rule_mark node) (filter (λ rule. is_over_limit lists.now rule row.now) restricting_rules);
      loads = [];
    }) }
{
    let marks = marks_over(alloc, lists, row, node, &Rule::RESTRICTING)?;
    Ok(Own {
        node,
        weight: u128::from(row.mass),
        marks,
        loads: Vec::new(alloc),
    })
}

/// The marks of those of the rules whose limit the material is over.
fn marks_over<'a>(
    alloc: Global,
    lists: &TablesAfter<'a>,
    row: &MaterialRow,
    node: NodeId,
    rules: &[Rule],
) -> Result<Vec<Mark>, OutOfMemory>
    requires { length row.now.substances ≤ CONTENT_LIMIT }
    ensures { IfOk result (λ marks. marks.items ≡ map (rule_mark node) (filter (λ rule. is_over_limit lists.now rule row.now) rules.now)) }
{
    let mut marks = Vec::new(alloc);
    for rule in rules {
        let what = u32::from(rule.number());
        push_if(
            &mut marks,
            lists.is_over_limit(row, *rule),
            Mark { node, what },
        )?;
    }
    Ok(marks)
}

/// What a code that is no material's has of its own.
fn own_of_part<'a>(
    alloc: Global,
    lists: &TablesAfter<'a>,
    names: &[Code],
    code: &Code,
    node: NodeId,
) -> Result<Own, OutOfMemory>
    requires consistent { IsConsistent lists.now }
    requires few { length lists.now.lines ≤ 131072 }
    requires named { AreNames lists.now names.now }
    requires none { is_material lists.now code.now ≡ false }
    ensures node { IfOk result (λ own. own.node ≡ node) }
    ensures own { IfOk result (λ own. (labels : List (List ℕ)) → place_of labels code.now ≡ node →
        IsOwnOf lists.now (finding_number labels names.now) (label_of names.now) code.now own) }
{
    if is_article(lists, code) {
        return own_of_article(alloc, lists, names, code, node);
    }
    Ok(Own {
        node,
        weight: 0,
        marks: Vec::new(alloc),
        loads: Vec::new(alloc),
    })
}

/// Whether the code is that of an article.
fn is_article<'a>(lists: &TablesAfter<'a>, code: &Code) -> bool
    ensures { result ≡ is_article lists.now code.now }
{
    match lists.part(code) {
        Some(row) => is_article_sort(row.sort),
        None => false,
    }
}

/// Whether the sort is that of articles.
fn is_article_sort(sort: PartSort) -> bool
    ensures { result ≡ is_article_sort sort }
{
    match sort {
        PartSort::Article => true,
        PartSort::Assembly => false,
    }
}

/// What an article has of its own.
fn own_of_article<'a>(
    alloc: Global,
    lists: &TablesAfter<'a>,
    names: &[Code],
    code: &Code,
    node: NodeId,
) -> Result<Own, OutOfMemory>
    requires consistent { IsConsistent lists.now }
    requires few { length lists.now.lines ≤ 131072 }
    requires named { AreNames lists.now names.now }
    requires none { is_material lists.now code.now ≡ false }
    requires article { is_article lists.now code.now ≡ true }
    ensures node { IfOk result (λ own. own.node ≡ node) }
    ensures own { IfOk result (λ own. (labels : List (List ℕ)) → place_of labels code.now ≡ node →
        IsOwnOf lists.now (finding_number labels names.now) (label_of names.now) code.now own) }
{
    let above = above_in(alloc, lists, code)?;
    let marks = marks_of(alloc, names, node, above.as_slice())?;
    let loads = loads_of(alloc, names, above.as_slice())?;
    Ok(Own {
        node,
        weight: 0,
        marks,
        loads,
    })
}

/// The marks of substances with names.
fn marks_of(
    alloc: Global,
    names: &[Code],
    node: NodeId,
    above: &[Holding],
) -> Result<Vec<Mark>, OutOfMemory>
    requires few { length names.now ≤ 4294967296 }
    requires named { All (λ holding. list_any (λ listed. same_code listed holding.substance) names.now ≡ true) above.now }
    ensures { IfOk result (λ marks. marks.items ≡ map (holding_mark names.now node) above.now) }
{
    let mut marks = Vec::new(alloc);
    for holding in above {
        let what = place_of(names, &holding.substance);
        marks.push(Mark { node, what })?;
    }
    Ok(marks)
}

/// The first place of a code that is listed.
fn place_of(names: &[Code], code: &Code) -> u32
    requires few { length names.now ≤ 4294967296 }
    requires there { list_any (λ listed. same_code listed code.now) names.now ≡ true }
    ensures { result ≡ place_of names.now code.now }
{
    for place in 0..names.len() {
        if names[place].cmp(code).is_eq() {
            return place as u32;
        }
    }
    unreachable!()
}

/// The loads of these substances, each under its name.
fn loads_of(alloc: Global, names: &[Code], above: &[Holding]) -> Result<Vec<Load>, OutOfMemory>
    requires { length names.now ≤ 4294967296 }
    ensures { IfOk result (λ loads. (n : ℕ) → amount_of loads.items n ≡ (if nat_lt n (length names.now) then amount_held above.now (label_of names.now n) else 0)) }
{
    let mut loads = Vec::new(alloc);
    if above.is_empty() {
        return Ok(loads);
    }
    for place in 0..names.len() {
        let amount = amount_among(above, &names[place]);
        push_load(&mut loads, place as u32, amount)?;
    }
    Ok(loads)
}

/// How much of a substance these tell.
fn amount_among(above: &[Holding], substance: &Code) -> u128
    ensures { result ≡ amount_held above.now substance.now }
{
    for holding in above {
        if holding.substance == *substance {
            return holding.amount;
        }
    }
    0
}

/// Appends a load, where it is of something.
fn push_load(loads: &mut Vec<Load>, what: u32, amount: u128) -> Result<(), OutOfMemory>
    ensures { OnOk result ((n : ℕ) → amount_of loads.new.items n ≡ amount_of loads.old.items n + (if what == n then amount else 0)) }
{
    if amount == 0 {
        return Ok(());
    }
    loads.push(Load { what, amount })?;
    Ok(())
}
