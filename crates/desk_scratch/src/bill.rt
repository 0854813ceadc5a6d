ghost use Rattle.std.specs.Prelude.{◌≡◌, ◌+◌, ◌≤◌, ◌-◌, ℕ, List, Some, length, is_some, true, map, IfOk};
ghost use Rattle.std.specs.List.{range_with_len};
ghost use Rattle.desk_history.specs.Sound.{Sound};
ghost use Rattle.desk_model.specs.Lists.{is_part, part_row};
ghost use Rattle.desk_findings.specs.Above.{content, is_above};
ghost use Rattle.desk_findings.specs.Carried.{carried, own_load};
ghost use Rattle.desk_findings.specs.Chain.{chain};
ghost use Rattle.desk_findings.specs.Mass.{mass};
ghost use Rattle.desk_findings.specs.Reaches.{is_or_reaches, reaches};
ghost use Rattle.desk_model.specs.Lists.{nodes_of};
ghost use Rattle.desk_totals.specs.Fit.{fit};
ghost use Rattle.desk_totals.specs.Places.{node_at};
ghost use Rattle.desk_scratch.specs.Steps.{chain_line_count};

use crate::answer_source::AnswerSource;
use crate::finding::Finding;
use crate::load::Load;
use crate::sub_bill::SubBill;
use crate::uses_found::does_hold;
use desk_graph::Steps;
use desk_model::{Codes, LineRow, PartRow, PartSort, ProductRow};
use desk_tables::Tables;
use desk_text::{Code, OutOfMemory};
use desk_totals::Links;
use std::alloc::Global;
use std::marker::Model;
use std::sync::ledger::Ledger;

/// The bill of materials of sound tables with the masses of its parts: what an answer makes once, and then looks up.
pub(crate) struct Bill<'a> {
    tables: &'a Tables,
    links: Links,
    masses: Vec<Option<u128>>,
}

// Written out, so that a function that owns one does not prove anew how each part is dropped.
impl Drop for Bill<'_> {
    fn drop(self) {
        let Bill {
            tables: _,
            links: _,
            masses: _,
        } = self;
    }
}

impl<'a> Model for Bill<'a> {
    ghost use Rattle.std.specs.Prelude.{◌≡◌, map};
    ghost use Rattle.desk_model.specs.Lists.{Lists};
    ghost use Rattle.desk_history.specs.Sound.{Sound};
    ghost use Rattle.desk_findings.specs.Mass.{mass};
    ghost use Rattle.desk_totals.specs.Fit.{fit};
    ghost use Rattle.desk_totals.specs.Linked.{IsLinkedOf};

    ghost Value = { Lists };

    ghost view = { λ b. b.tables.now.lists };

    ghost invariant = { λ b. Sound b.tables.now.lists
        × IsLinkedOf b.links b.tables.now.lists
        × (b.masses.items ≡ map (λ part. fit (mass b.tables.now.lists part.code)) b.tables.now.lists.parts) };
}

impl<'a> Bill<'a> {
    /// The bill of these tables. It takes up to two searches of a node for each line and a few passes over
    /// nodes and lines.
    pub(crate) fn new(alloc: Global, tables: &'a Tables) -> Result<Bill<'a>, OutOfMemory>
        requires { Sound tables.now.lists }
        ensures { IfOk result (λ bill. bill ≡ tables.now.lists) }
    {
        let lists = tables.lists();
        let links = lists.links(alloc)?;
        let masses = lists.masses(alloc, &links)?;
        Ok(Bill {
            tables,
            links,
            masses,
        })
    }

    /// The tables.
    pub(crate) fn tables(&self) -> &'a Tables
        ensures lists { result.now.lists ≡ self.now }
        ensures sound { Sound self.now }
    {
        self.tables
    }

    /// What the part weighs, in micrograms. It takes a binary search.
    pub(crate) fn mass(&self, part: &Code) -> u128
        requires { is_part self.now part.now ≡ true }
        ensures { result ≡ mass self.now part.now }
    {
        match self
            .tables
            .lists()
            .mass_of_part(self.masses.as_slice(), part)
        {
            Some(mass) => mass,
            // No part of sound tables weighs 2^128 micrograms or more.
            None => unreachable!(),
        }
    }

    /// What the part has of the substance by its own lines, in micrograms. It takes a binary search for each of them.
    pub(crate) fn content(&self, part: &Code, substance: &Code) -> u128
        requires { is_part self.now part.now ≡ true }
        ensures { result ≡ content self.now part.now substance.now }
    {
        self.tables.in_order();
        self.tables.lists().content(part, substance)
    }

    /// Whether the substance is a candidate and more than one thousandth of the part's mass. It takes a binary search
    /// for each line of the part.
    pub(crate) fn is_above(&self, part: &Code, substance: &Code) -> bool
        requires { is_part self.now part.now ≡ true }
        ensures { result ≡ is_above self.now part.now substance.now }
    {
        self.tables.in_order();
        let mass = self.mass(part);
        self.tables.lists().is_above(part, mass, substance)
    }

    /// The chain from the part to what it reaches. It takes a few passes over nodes and lines.
    pub(crate) fn chain(
        &self,
        alloc: Global,
        part: &Code,
        target: &Code,
    ) -> Result<Codes, OutOfMemory>
        ensures { IfOk result (λ codes. codes ≡ chain self.now part.now target.now) }
    {
        self.links.chain(alloc, part, target)
    }

    /// Of each node whether it reaches the code. It takes a pass over nodes and lines.
    pub(crate) fn marks(&self, alloc: Global, code: &Code) -> Result<Vec<bool>, OutOfMemory>
        ensures { IfOk result (λ marks. marks.items ≡ map (λ node. reaches self.now node code.now) (nodes_of self.now)) }
    {
        self.links.marks(alloc, code)
    }

    /// Whether the part reaches the code or is it, by whether each node reaches the code. It takes a binary search.
    pub(crate) fn does_hold(&self, marks: &[bool], part: &Code, code: &Code) -> bool
        requires { marks.now ≡ map (λ node. reaches self.now node code.now) (nodes_of self.now) }
        ensures { result ≡ is_or_reaches self.now part.now code.now }
    {
        does_hold(&self.links, marks, part, code)
    }

    /// Of each material, in order, whether the part reaches it. It takes, for each 64 materials, a few passes over
    /// nodes and lines.
    pub(crate) fn reached_materials(
        &self,
        alloc: Global,
        part: &Code,
    ) -> Result<Vec<bool>, OutOfMemory>
        requires { is_part self.now part.now ≡ true }
        ensures { IfOk result (λ marks. marks.items ≡ map (λ material. reaches self.now part.now material.code) self.now.materials) }
    {
        self.reached_in(alloc, part, 0, self.links.material_count())
    }

    /// Of each part, in order, whether the one that is given is it or reaches it. It takes, for each 64 parts, a few
    /// passes over nodes and lines.
    pub(crate) fn reached_parts(&self, alloc: Global, part: &Code) -> Result<Vec<bool>, OutOfMemory>
        requires { is_part self.now part.now ≡ true }
        ensures { IfOk result (λ marks. marks.items ≡ map (λ other. is_or_reaches self.now part.now other.code) self.now.parts) }
    {
        self.reached_in(
            alloc,
            part,
            self.links.material_count(),
            self.links.nodes().len(),
        )
    }

    /// Of each node from the first place to the end whether the part is it or reaches it.
    fn reached_in(
        &self,
        alloc: Global,
        part: &Code,
        first: usize,
        end: usize,
    ) -> Result<Vec<bool>, OutOfMemory>
        requires kept { is_part self.now part.now ≡ true }
        requires order { first ≤ end }
        requires within { end ≤ length (nodes_of self.now) }
        ensures { IfOk result (λ marks. marks.items
            ≡ map (λ place. is_or_reaches self.now part.now (node_at (nodes_of self.now) place)) (range_with_len first (end - first))) }
    {
        let mut places = Vec::with_capacity(alloc, end - first)?;
        for place in first..end {
            places.push_reserved(place);
        }
        match self.links.place_of(part) {
            Some(from) => self.links.reached_among(alloc, from, places.as_slice()),
            // Each part is a node.
            None => unreachable!(),
        }
    }

    /// What each material and then each part carries of the substance, in micrograms. It takes, for each article, a
    /// binary search for each of its lines, and a few passes over nodes and lines.
    pub(crate) fn loads(
        &self,
        alloc: Global,
        substance: &Code,
    ) -> Result<Vec<Option<u128>>, OutOfMemory>
        ensures { IfOk result (λ loads. loads.items ≡ map (λ code. fit (carried self.now substance.now code)) (nodes_of self.now)) }
    {
        let own = self.own_loads(alloc, substance)?;
        self.links.rolled_up(alloc, own.as_slice())
    }

    /// What each material and then each part carries of the substance by itself, in micrograms.
    fn own_loads(&self, alloc: Global, substance: &Code) -> Result<Vec<u128>, OutOfMemory>
        ensures { IfOk result (λ own. own.items ≡ map (own_load self.now substance.now) (nodes_of self.now)) }
    {
        let mut own = Vec::new(alloc);
        for _material in self.tables.materials() {
            own.push(0)?;
        }
        for part in self.tables.parts() {
            own.push(self.own_load(part, substance))?;
        }
        Ok(own)
    }

    /// What the part carries of the substance by itself, in micrograms.
    fn own_load(&self, part: &PartRow, substance: &Code) -> u128
        requires { part_row self.now part.now.code ≡ Some part.now }
        ensures { result ≡ own_load self.now substance.now part.now.code }
    {
        if part.sort == PartSort::Assembly {
            return 0;
        }
        if !self.is_above(&part.code, substance) {
            return 0;
        }
        self.content(&part.code, substance)
    }

    /// What the part carries, by what each material and then each part carries. It takes a binary search.
    pub(crate) fn load(&self, loads: &[Option<u128>], part: &Code) -> u128
        requires kept { is_part self.now part.now ≡ true }
        requires loads { (substance : List ℕ) × (loads.now ≡ map (λ code. fit (carried self.now substance code)) (nodes_of self.now)) }
        ensures { (substance : List ℕ) → loads.now ≡ map (λ code. fit (carried self.now substance code)) (nodes_of self.now)
            → result ≡ carried self.now substance part.now }
    {
        match self.links.place_of(part) {
            Some(place) => known(loads[place]),
            // Each part is a node.
            None => unreachable!(),
        }
    }
}

impl<'a> AnswerSource for Bill<'a> {
    ghost lists = { λ bill. bill };

    fn tables(&self) -> &Tables {
        Bill::tables(self)
    }

    fn mass(&self, part: &Code) -> u128 {
        Bill::mass(self, part)
    }

    fn content(&self, article: &Code, substance: &Code) -> u128 {
        Bill::content(self, article, substance)
    }

    fn findings<L: Ledger>(
        &self,
        alloc: Global,
        part: &Code,
        steps: &mut Steps<L>,
    ) -> Result<Vec<Finding>, OutOfMemory> {
        steps.tick();
        Bill::findings(self, alloc, part)
    }

    fn chain<L: Ledger>(
        &self,
        alloc: Global,
        part: &Code,
        finding: &Finding,
        steps: &mut Steps<L>,
    ) -> Result<Codes, OutOfMemory> {
        let codes = match *finding {
            Finding::Over { material, .. } => Bill::chain(self, alloc, part, &material),
            Finding::Above { article, .. } => Bill::chain(self, alloc, part, &article),
        }?;
        count_lines(codes.as_slice(), steps);
        Ok(codes)
    }

    fn loads(&self, alloc: Global, part: &Code) -> Result<Vec<Load>, OutOfMemory> {
        let sub_bill = SubBill::new(alloc, self.tables, part)?;
        sub_bill.loads_of(alloc, part)
    }

    fn tonnages(&self, alloc: Global, year: u16) -> Result<Vec<u128>, OutOfMemory> {
        Bill::tonnages(self, alloc, year)
    }

    fn users(&self, alloc: Global, code: &Code) -> Result<Vec<LineRow>, OutOfMemory> {
        Bill::users(self, alloc, code)
    }

    fn products_with(&self, alloc: Global, code: &Code) -> Result<Vec<ProductRow>, OutOfMemory> {
        Bill::products_with(self, alloc, code)
    }
}

/// Counts a step for each line of the chain.
fn count_lines<L: Ledger>(chain: &[Code], steps: &mut Steps<L>)
    ensures { steps.new ≡ steps.old + chain_line_count chain.now }
{
    let lines = chain.len().saturating_sub(1);
    for _ in 0..lines {
        steps.tick();
    }
}

/// The amount that is known.
fn known(amount: Option<u128>) -> u128
    requires { is_some amount ≡ true }
    ensures { amount ≡ Some result }
{
    match amount {
        Some(amount) => amount,
        None => unreachable!(),
    }
}
