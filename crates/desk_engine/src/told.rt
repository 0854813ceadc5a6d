//! The findings of a part by its marks.
ghost use Rattle.std.specs.Prelude.{◌≡◌, ◌+◌, ◌<◌, ℕ, true, Ok, length, map, IfOk};
ghost use Rattle.std.specs.List.{AllByRecursion};
ghost use Rattle.desk_text.specs.Code.{code_of};
ghost use Rattle.desk_graph.specs.Graph.{label_of};
ghost use Rattle.desk_law.specs.declared.rule.Rule.{Rule};
ghost use Rattle.desk_law.specs.Rule.{rule_number};
ghost use Rattle.desk_model.specs.Lists.{is_part};
ghost use Rattle.desk_findings.specs.Findings.{findings};
ghost use Rattle.desk_history.specs.Sound.{Sound};
ghost use Rattle.desk_rollup.specs.Numbers.{mark_number};
ghost use Rattle.desk_scratch.specs.LookUps.{finding_of};
ghost use Rattle.desk_bridge.specs.Order.{finding_cmp};
ghost use Rattle.desk_engine.specs.Answers.{AreTold, HasNumber, IsNumber};
ghost use Rattle.desk_engine.specs.Stored.{IsStoredOf};

use crate::node_values::peek_values;
use crate::stored::Stored;
use desk_graph::{Bill, NodeId, Steps};
use desk_law::Rule;
use desk_rollup::{Hop, Mark};
use desk_scratch::Finding;
use desk_tables::Tables;
use desk_text::{Code, OutOfMemory};
use std::alloc::Global;
use std::cmp::Ordering;
use std::sync::ledger::Ledger;

/// The findings of a part: those on materials in order of material and then of rule, and behind them those on articles, in order of
/// article and then of substance. It takes one step, a binary search for each of them, and what sorting them takes.
pub(crate) fn stored_findings<L: Ledger>(
    alloc: Global,
    tables: &Tables,
    stored: &Stored,
    part: &Code,
    steps: &mut Steps<L>,
) -> Result<Vec<Finding>, OutOfMemory>
    requires sound { Sound tables.now.lists }
    requires stored { IsStoredOf tables.now.lists stored.now }
    requires part { is_part tables.now.lists part.now ≡ true }
    ensures findings { IfOk result (λ list. map finding_of list.items ≡ findings tables.now.lists part.now) }
    ensures steps { steps.new ≡ steps.old + 1 }
{
    // A bill tells what holds of every bill.
    stored.bill.node_count();
    let values = peek_values(tables, stored, part, steps);
    let mut list = told_of(alloc, tables, stored, values.hops.as_slice())?;
    list.sort_unstable_by(
        |one: &Finding, other: &Finding| -> Ordering
            ensures { result ≡ finding_cmp (finding_of one.now) (finding_of other.now) }
        { cmp_findings(one, other) },
    );
    Ok(list)
}

/// The findings of these marks, in the order of the marks.
fn told_of(
    alloc: Global,
    tables: &Tables,
    stored: &Stored,
    hops: &[Hop],
) -> Result<Vec<Finding>, OutOfMemory>
    requires sound { Sound tables.now.lists }
    requires stored { IsStoredOf tables.now.lists stored.now }
    requires marks { AllByRecursion (λ hop. IsNumber tables.now.lists stored.now.bill.labels stored.now.names (mark_number hop.mark)) hops.now }
    ensures { IfOk result (λ list. AreTold tables.now.lists stored.now.bill.labels stored.now.names hops.now list.items) }
{
    let mut list = Vec::with_capacity(alloc, hops.len())?;
    for hop in hops {
        list.push_reserved(finding_at(tables, stored, &hop.mark));
    }
    Ok(list)
}

/// The finding of a mark.
fn finding_at(tables: &Tables, stored: &Stored, mark: &Mark) -> Finding
    requires sound { Sound tables.now.lists }
    requires stored { IsStoredOf tables.now.lists stored.now }
    requires mark { IsNumber tables.now.lists stored.now.bill.labels stored.now.names (mark_number mark.now) }
    ensures { HasNumber tables.now.lists stored.now.bill.labels stored.now.names (mark_number mark.now) (finding_of result) }
{
    let code = label_at(&stored.bill, mark.node);
    if tables.is_material(&code) {
        return Finding::Over {
            material: code,
            rule: rule_at(mark.what),
        };
    }
    let names = stored.names.as_slice();
    Finding::Above {
        article: code,
        substance: names[mark.what as usize],
    }
}

/// The code that labels a node.
pub(crate) fn label_at(bill: &Bill, node: NodeId) -> Code
    requires there { node < length bill.now.labels }
    requires code { code_of (label_of bill.now.labels node) ≡ Ok (label_of bill.now.labels node) }
    ensures { result ≡ label_of bill.now.labels node }
{
    match Code::read(bill.label(node)) {
        Ok(code) => code,
        Err(_) => unreachable!(),
    }
}

/// The rule of this number.
#[tactic(auto, unfolding(desk_law::specs::Rule::rule_number))]
fn rule_at(number: u32) -> Rule
    requires { (rule : Rule) × (rule_number rule ≡ number) }
    ensures { rule_number result ≡ number }
{
    match number {
        1 => Rule::Lead,
        2 => Rule::Mercury,
        3 => Rule::Cadmium,
        4 => Rule::ChromiumVi,
        5 => Rule::Pbb,
        6 => Rule::Pbde,
        7 => Rule::Dehp,
        8 => Rule::Bbp,
        9 => Rule::Dbp,
        10 => Rule::Dibp,
        _ => unreachable!(),
    }
}

/// How two findings stand to each other in answers.
fn cmp_findings(one: &Finding, other: &Finding) -> Ordering
    ensures { result ≡ finding_cmp (finding_of one.now) (finding_of other.now) }
{
    match one {
        Finding::Over { material, rule } => match other {
            Finding::Over {
                material: beside,
                rule: another,
            } => material
                .cmp(beside)
                .then(rule.number().cmp(&another.number())),
            Finding::Above { .. } => Ordering::Less,
        },
        Finding::Above { article, substance } => match other {
            Finding::Over { .. } => Ordering::Greater,
            Finding::Above {
                article: beside,
                substance: another,
            } => article.cmp(beside).then(substance.cmp(another)),
        },
    }
}
