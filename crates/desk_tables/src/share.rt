ghost use Rattle.std.specs.Prelude.{◌≡◌, ◌≤◌, length, option_map};
ghost use Rattle.desk_rows.specs.Rows.{IsByKey};
ghost use Rattle.desk_model.specs.Lists.{material_row, member_key, member_key_cmp};
ghost use Rattle.desk_model.specs.declared.limits.TheConstants.{CONTENT_LIMIT};
ghost use Rattle.desk_findings.specs.Share.{factor_of, share};
ghost use Rattle.desk_history.specs.Sound.{Sound};

use crate::findings::row_of;
use crate::{TableLists, Tables};
use desk_law::Rule;
use desk_model::MaterialRow;
use desk_text::Code;

impl Tables {
    /// The share of the rule in the material of this code, in millionths of a microgram: `None` where the material isn't kept. It
    /// takes a binary search for each substance of the material.
    pub fn share(&self, material: &Code, rule: Rule) -> Option<u128>
        requires { Sound self.now.lists }
        ensures { result ≡ option_map (share self.now.lists rule) (material_row self.now.lists material.now) }
    {
        match self.material(material) {
            Some(row) => Some(self.share_in(row, rule)),
            None => None,
        }
    }

    /// The share of the rule in a material, in millionths of a microgram: the sum over its substances of mass times factor.
    pub fn share_in(&self, material: &MaterialRow, rule: Rule) -> u128
        requires { length material.now.substances ≤ CONTENT_LIMIT }
        ensures { result ≡ share self.now.lists rule material.now }
    {
        // The call does nothing but say that the members stand in order.
        self.in_order();
        self.lists().share_in(material, rule)
    }
}

impl<'a> TableLists<'a> {
    /// The share of the rule in a material, in millionths of a microgram: the sum over its substances of mass times factor.
    #[tactic(auto, unfolding(desk_findings::specs::Share::share))]
    pub fn share_in(&self, material: &MaterialRow, rule: Rule) -> u128
        requires ordered { IsByKey member_key member_key_cmp self.now.members }
        requires few { length material.now.substances ≤ CONTENT_LIMIT }
        ensures { result ≡ share self.now rule material.now }
    {
        let mut share = 0u128;
        for held in material.substances.as_slice() {
            share += u128::from(held.mass) * u128::from(self.factor_of(rule, &held.substance));
        }
        share
    }

    /// By which factor the substance counts for the rule, in millionths: 0 where it is no member. It takes a binary search.
    fn factor_of(&self, rule: Rule, substance: &Code) -> u32
        requires { IsByKey member_key member_key_cmp self.now.members }
        ensures { result ≡ factor_of self.now rule substance.now }
    {
        match row_of(self.members(), &(*substance, rule.number())) {
            Some(member) => member.factor,
            None => 0,
        }
    }
}
