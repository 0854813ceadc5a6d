//! Laws of this crate's types, each proved as the contract of a function that does nothing.

ghost use Rattle.std.specs.Prelude.{◌≡◌};
ghost use Rattle.desk_law.specs.Claim.{claim_cmp};
ghost use Rattle.desk_law.specs.Kind.{kind_cmp};
ghost use Rattle.desk_law.specs.Rule.{rule_cmp};

use crate::{Claim, Kind, Rule};

/// Kinds stand in the order of Annex I, rules in the order of their numbers, and claims in the order of their
/// rules and then of the bytes of their exemption's numbers.
pub fn kinds_rules_and_claims_have_their_orders()
    ensures kinds { ⟦<Kind as Ord>⟧.cmp ≡ kind_cmp }
    ensures rules { ⟦<Rule as Ord>⟧.cmp ≡ rule_cmp }
    ensures claims { ⟦<Claim as Ord>⟧.cmp ≡ claim_cmp }
{}
