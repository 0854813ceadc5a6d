ghost use Rattle.std.specs.Prelude.{◌≡◌, ◌+◌, ◌*◌, ◌≤◌, ◌^◌, find, length, IfOk, MatchOption};
ghost use Rattle.desk_history.specs.Sound.{Sound};
ghost use Rattle.desk_law.specs.Rule.{same_rule};
ghost use Rattle.desk_model.specs.Lists.{Lists};
ghost use Rattle.desk_model.specs.declared.limits.TheConstants.{CONTENT_LIMIT};
ghost use Rattle.desk_model.specs.declared.rows.material.MaterialRow.{MaterialRow};
ghost use Rattle.desk_findings.specs.Share.{share};
ghost use Rattle.desk_scratch.specs.Holdings.{factor_in, holding_of, holdings_of};

use desk_law::Rule;
use desk_model::{MemberRow, SubstanceMass};
use desk_rows::run_of;
use desk_tables::Tables;
use desk_text::OutOfMemory;
use std::alloc::Global;
use std::marker::Model;

/// What a material holds of one substance, and what the rules count of that substance.
#[derive(Drop)]
struct Holding<'a> {
    /// In micrograms.
    mass: u64,
    /// The rows of the substance, one for each rule that counts it.
    members: &'a [MemberRow],
}

impl<'a> Model for Holding<'a> {
    ghost use Rattle.desk_scratch.specs.Holdings.{Holding};

    ghost Value = { Holding };

    ghost view = { λ h. record { mass = h.mass; members = h.members.now } };
}

/// What a material holds. The members of each substance are found once, whatever the number of rules.
#[derive(Drop)]
pub(crate) struct Holdings<'a> {
    each: Vec<Holding<'a>>,
}

impl<'a> Model for Holdings<'a> {
    ghost use Rattle.std.specs.Prelude.{List, ◌≤◌, length};
    ghost use Rattle.desk_model.specs.declared.limits.TheConstants.{CONTENT_LIMIT};
    ghost use Rattle.desk_scratch.specs.Holdings.{Holding};

    ghost Value = { List Holding };

    ghost view = { λ h. h.each.items };

    ghost invariant = { λ h. length h.each.items ≤ CONTENT_LIMIT };
}

impl<'a> Holdings<'a> {
    /// What these substances come to, by the tables. It takes a binary search for each.
    pub(crate) fn new(
        alloc: Global,
        tables: &'a Tables,
        substances: &[SubstanceMass],
    ) -> Result<Holdings<'a>, OutOfMemory>
        requires sound { Sound tables.now.lists }
        requires few { length substances.now ≤ CONTENT_LIMIT }
        ensures { IfOk result (λ holdings. holdings ≡ holdings_of tables.now.lists substances.now) }
    {
        let mut each = Vec::with_capacity(alloc, substances.len())?;
        for held in substances {
            each.push_reserved(holding_of(tables, held));
        }
        Ok(Holdings { each })
    }

    /// The share of the rule in the material, in millionths of a microgram.
    pub(crate) fn share(&self, rule: Rule) -> u128
        ensures { (t : Lists) (material : MaterialRow) → self.now ≡ holdings_of t material.substances → result ≡ share t rule material }
    {
        let mut share = 0u128;
        for holding in self.each.as_slice() {
            share = share_with(share, rule, holding);
        }
        share
    }
}

/// The share of the rule in a material of these substances, by the tables, in millionths of a microgram. It takes a binary
/// search for each of them, and no memory.
pub(crate) fn share_of(tables: &Tables, rule: Rule, substances: &[SubstanceMass]) -> u128
    requires sound { Sound tables.now.lists }
    requires few { length substances.now ≤ CONTENT_LIMIT }
    ensures { (material : MaterialRow) → substances.now ≡ material.substances → result ≡ share tables.now.lists rule material }
{
    let mut share = 0u128;
    for held in substances {
        share = share_with(share, rule, &holding_of(tables, held));
    }
    share
}

/// What is held of a substance. It takes a binary search.
fn holding_of<'a>(tables: &'a Tables, held: &SubstanceMass) -> Holding<'a>
    requires { Sound tables.now.lists }
    ensures { result ≡ holding_of tables.now.lists held.now }
{
    Holding {
        mass: held.mass,
        members: run_of(tables.members(), &held.substance),
    }
}

/// The share with what the rule counts of a substance that is held, in millionths of a microgram.
fn share_with(share: u128, rule: Rule, holding: &Holding<'_>) -> u128
    requires { share ≤ 2 ^ 127 }
    ensures value { result ≡ share + holding.now.mass * factor_in rule holding.now.members }
    ensures small { result ≤ share + 2 ^ 96 }
{
    match factor_for(rule, holding.members) {
        Some(factor) => share + u128::from(holding.mass) * u128::from(factor),
        None => share,
    }
}

/// How much of a substance's mass the rule counts, in millionths, where one of these members is the rule's.
#[tactic(auto, unfolding(crate::specs::Holdings::factor_in))]
fn factor_for(rule: Rule, members: &[MemberRow]) -> Option<u32>
    ensures { MatchOption result (factor_in rule members.now ≡ 0) (λ factor. factor ≡ factor_in rule members.now) }
{
    match members {
        // Most substances have one member alone.
        [member] => {
            if is_for(rule, member) {
                Some(member.factor)
            } else {
                None
            }
        }
        _ => match member_in(rule, members) {
            Some(member) => Some(member.factor),
            None => None,
        },
    }
}

/// The first of these members that is the rule's.
fn member_in(rule: Rule, members: &[MemberRow]) -> Option<MemberRow>
    ensures { result ≡ find (λ member. same_rule member.rule rule) members.now }
{
    members.iter().copied().find(|member| is_for(rule, member))
}

/// Whether the member is the rule's.
#[tactic(auto, unfolding(desk_law::specs::Rule::rule_number))]
fn is_for(rule: Rule, member: &MemberRow) -> bool
    ensures { result ≡ same_rule member.now.rule rule }
{
    member.rule == rule
}
