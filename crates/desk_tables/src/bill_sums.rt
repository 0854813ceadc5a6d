ghost use Rattle.std.specs.Prelude.{◌≡◌, ◌++◌, true, IfOk, map};
ghost use Rattle.desk_model.specs.Lists.{IsOrdered};
ghost use Rattle.desk_findings.specs.Bill.{are_children_right, are_codes_apart};
ghost use Rattle.desk_findings.specs.Mass.{mass, own_mass};
ghost use Rattle.desk_findings.specs.Reaches.{is_or_reaches};
ghost use Rattle.desk_findings.specs.Totals.{too_heavy_part};
ghost use Rattle.desk_history.specs.Sound.{IsConsistent};
ghost use Rattle.desk_totals.specs.Fit.{fit};
ghost use Rattle.desk_totals.specs.Linked.{IsLinkedOf};

use crate::TableLists;
use desk_text::{Code, OutOfMemory};
use desk_totals::Links;
use std::alloc::Global;

/// What the whole bill of materials comes to.
impl<'a> TableLists<'a> {
    /// The bill of materials by the places of its nodes. It takes up to two searches of a node for each line.
    pub fn links(&self, alloc: Global) -> Result<Links, OutOfMemory>
        requires { IsConsistent self.now }
        ensures { IfOk result (λ bill. IsLinkedOf bill self.now) }
    {
        self.linked(alloc)
    }

    /// The bill of materials by the places of its nodes, of lists that may hold a cycle. It takes up to two
    /// searches of a node for each line.
    pub(crate) fn linked(&self, alloc: Global) -> Result<Links, OutOfMemory>
        requires ordered { IsOrdered self.now }
        requires apart { are_codes_apart self.now ≡ true }
        requires children { are_children_right self.now ≡ true }
        ensures { IfOk result (λ bill. IsLinkedOf bill self.now) }
    {
        let nodes = self.nodes(alloc)?;
        Links::new(alloc, nodes, self.materials().len(), self.lines())
    }

    /// Whether the part is the target or reaches it. It takes two passes over nodes and lines.
    pub fn is_or_reaches(
        &self,
        alloc: Global,
        bill: &Links,
        part: &Code,
        target: &Code,
    ) -> Result<bool, OutOfMemory>
        requires consistent { IsConsistent self.now }
        requires bill { IsLinkedOf bill.now self.now }
        ensures { IfOk result (λ does. does ≡ is_or_reaches self.now part.now target.now) }
    {
        if part == target {
            return Ok(true);
        }
        bill.does_reach(alloc, part, target)
    }

    /// The codes of the materials and then of the parts.
    fn nodes(&self, alloc: Global) -> Result<Vec<Code>, OutOfMemory>
        ensures { IfOk result (λ nodes. nodes.items ≡ map (λ row. row.code) self.now.materials ++ map (λ row. row.code) self.now.parts) }
    {
        let mut nodes = Vec::new(alloc);
        for material in self.materials() {
            nodes.push(material.code)?;
        }
        for part in self.parts() {
            nodes.push(part.code)?;
        }
        Ok(nodes)
    }

    /// The mass of each part in micrograms, in order: `None` where it is 2^128 or more. It takes two passes over nodes
    /// and lines.
    pub fn masses(&self, alloc: Global, bill: &Links) -> Result<Vec<Option<u128>>, OutOfMemory>
        requires consistent { IsConsistent self.now }
        requires bill { IsLinkedOf bill.now self.now }
        ensures { IfOk result (λ masses. masses.items ≡ map (λ part. fit (mass self.now part.code)) self.now.parts) }
    {
        let own = self.own_masses(alloc)?;
        let of_nodes = bill.rolled_up(alloc, own.as_slice())?;
        let mut masses = Vec::new(alloc);
        for mass in &of_nodes.as_slice()[self.materials().len()..] {
            masses.push(*mass)?;
        }
        Ok(masses)
    }

    /// The mass of each node of its own in micrograms: that of a material, and 0 for a part.
    fn own_masses(&self, alloc: Global) -> Result<Vec<u128>, OutOfMemory>
        requires { IsConsistent self.now }
        ensures { IfOk result (λ own. own.items ≡ map (own_mass self.now) (map (λ row. row.code) self.now.materials ++ map (λ row. row.code) self.now.parts)) }
    {
        let mut own = Vec::new(alloc);
        for material in self.materials() {
            own.push(u128::from(material.mass))?;
        }
        for _part in self.parts() {
            own.push(0)?;
        }
        Ok(own)
    }

    /// The part with the least code whose mass is 2^128 micrograms or more.
    #[tactic(auto, unfolding(desk_findings::specs::Totals::too_heavy_part))]
    pub fn too_heavy_part(&self, masses: &[Option<u128>]) -> Option<Code>
        requires { masses.now ≡ map (λ part. fit (mass self.now part.code)) self.now.parts }
        ensures { result ≡ too_heavy_part self.now }
    {
        let mut place = 0;
        for part in self.parts() {
            if masses[place].is_none() {
                return Some(part.code);
            }
            place += 1;
        }
        None
    }
}
