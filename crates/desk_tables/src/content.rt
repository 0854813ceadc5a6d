ghost use Rattle.std.specs.Prelude.{◌≡◌, map, nat_le, sum_by};
ghost use Rattle.std.specs.List.{list_all};
ghost use Rattle.std.specs.Ordering.{on};
ghost use Rattle.desk_text.specs.Code.{code_cmp};
ghost use Rattle.desk_law.specs.Claim.{claim_cmp};
ghost use Rattle.desk_model.specs.declared.limits.TheConstants.{MASS_LIMIT};
ghost use Rattle.desk_model.specs.Content.{are_claims, are_substances, holds_too_much, is_content, is_content_in_form, rises};
ghost use Rattle.desk_fields.specs.Reading.{in_turn};
ghost use Rattle.desk_model.specs.Forms.{is_material_row};
ghost use Rattle.desk_model.specs.Lists.{is_substance};

use crate::Tables;
use desk_law::Claim;
use desk_model::limits::{CLAIM_LIMIT, CONTENT_LIMIT, MASS_LIMIT};
use desk_model::{MaterialRow, SubstanceMass};
use std::cmp::Ordering;

/// Whether the row's values are of their form and in their range, with its substances and claims in order.
#[tactic(auto, unfolding(desk_model::specs::Forms::is_material_row))]
pub(crate) fn is_in_form(row: &MaterialRow) -> bool
    ensures { result ≡ is_material_row row.now }
{
    row.code.as_bytes();
    row.supplier.as_bytes();
    row.day.year();
    row.name.as_bytes();
    // The number of a declaration is at least 1.
    1 <= row.number && has_content(row) && is_content_in_form(row)
}

/// Whether the mass, the substances and the claims are in their ranges.
fn has_content(row: &MaterialRow) -> bool
    ensures { result ≡ is_content row.now.mass row.now.substances row.now.claims }
{
    1 <= row.mass
        && row.mass <= MASS_LIMIT
        && are_substances(row.substances.as_slice())
        && are_claims(row.claims.as_slice())
}

/// Says that the codes of the substances and the exemption numbers of the claims are of their form, as their types keep
/// them.
fn is_content_in_form(row: &MaterialRow) -> bool
    ensures { result ≡ is_content_in_form row.now.substances row.now.claims }
{
    for held in row.substances.as_slice() {
        held.substance.as_bytes();
    }
    for claim in row.claims.as_slice() {
        claim.number.as_bytes();
    }
    true
}

/// Whether these may be the substances of a material.
fn are_substances(held: &[SubstanceMass]) -> bool
    ensures { result ≡ are_substances held.now }
{
    if held.len() > CONTENT_LIMIT {
        return false;
    }
    do_codes_rise(held) && are_masses_in_range(held)
}

/// Whether the codes rise.
fn do_codes_rise(held: &[SubstanceMass]) -> bool
    ensures { result ≡ rises code_cmp (map (λ one. one.substance) held.now) }
{
    is_each_code_below(held)
}

/// Whether each code is below the one behind it.
fn is_each_code_below(held: &[SubstanceMass]) -> bool
    ensures { result ≡ in_turn (on (λ one. one.substance) code_cmp) held.now }
{
    for place in 1..held.len() {
        if held[place - 1]
            .substance
            .cmp(&held[place].substance)
            .is_ge()
        {
            return false;
        }
    }
    true
}

/// Whether no mass is too large.
fn are_masses_in_range(held: &[SubstanceMass]) -> bool
    ensures { result ≡ list_all (λ one. nat_le one.mass MASS_LIMIT) held.now }
{
    for one in held {
        if one.mass > MASS_LIMIT {
            return false;
        }
    }
    true
}

/// Whether these may be the claims for a material.
fn are_claims(claims: &[Claim]) -> bool
    ensures { result ≡ are_claims claims.now }
{
    if claims.len() > CLAIM_LIMIT {
        return false;
    }
    do_claims_rise(claims)
}

/// Whether the claims rise.
fn do_claims_rise(claims: &[Claim]) -> bool
    ensures { result ≡ rises claim_cmp claims.now }
{
    is_each_claim_below(claims)
}

/// Whether each claim is below the one behind it.
fn is_each_claim_below(claims: &[Claim]) -> bool
    ensures { result ≡ in_turn claim_cmp claims.now }
{
    for place in 1..claims.len() {
        if !order_of(&claims[place - 1], &claims[place]).is_lt() {
            return false;
        }
    }
    true
}

/// How a claim stands to another.
fn order_of(first: &Claim, second: &Claim) -> Ordering
    ensures { result ≡ claim_cmp first.now second.now }
{
    first.cmp(second)
}

/// Whether the substances weigh more than the material that holds them.
pub(crate) fn holds_too_much(row: &MaterialRow) -> bool
    ensures { result ≡ holds_too_much row.now.mass row.now.substances }
{
    u128::from(row.mass) < total_mass(row.substances.as_slice())
}

/// The mass of the substances together, in micrograms.
fn total_mass(held: &[SubstanceMass]) -> u128
    ensures { result ≡ sum_by (λ one. one.mass) held.now }
{
    let mut total = 0;
    for one in held {
        total += u128::from(one.mass);
    }
    total
}

/// Whether each of the substances is kept.
pub(crate) fn are_substances_kept(tables: &Tables, held: &[SubstanceMass]) -> bool
    ensures { result ≡ list_all (λ held. is_substance tables.now.lists held.substance) held.now }
{
    for one in held {
        if !tables.is_substance(&one.substance) {
            return false;
        }
    }
    true
}
