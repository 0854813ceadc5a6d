ghost use Rattle.std.specs.Prelude.{◌≡◌, ◌+◌, map, true, IfOk, OnOk};
ghost use Rattle.desk_history.specs.Sound.{Sound};
ghost use Rattle.desk_model.specs.Lists.{Lists, is_kept, is_part};
ghost use Rattle.desk_findings.specs.Above.{content};
ghost use Rattle.desk_findings.specs.Chain.{chain};
ghost use Rattle.desk_findings.specs.Findings.{findings, is_in};
ghost use Rattle.desk_findings.specs.Mass.{mass};
ghost use Rattle.desk_findings.specs.Tonnage.{tonnage};
ghost use Rattle.desk_scratch.specs.Steps.{chain_line_count};
ghost use Rattle.desk_scratch.specs.LookUps.{IsHeldAbove, finding_of, holder_of, loads_of};
ghost use Rattle.desk_scratch.specs.Uses.{lines_to, products_with};

use crate::finding::Finding;
use crate::load::Load;
use desk_graph::Steps;
use desk_model::{Codes, LineRow, ProductRow};
use desk_tables::Tables;
use desk_text::{Code, OutOfMemory};
use std::alloc::Global;
use std::sync::ledger::Ledger;

/// What answers look up in sound tables and beside them: the texts are written once, over whatever tells this.
pub trait AnswerSource {
    // The lists of the tables.
    ghost lists: { Self → Lists };

    /// The tables.
    fn tables(&self) -> &Tables
        ensures lists { result.now.lists ≡ lists self.now }
        ensures sound { Sound (lists self.now) };

    /// What a part weighs, in micrograms.
    fn mass(&self, part: &Code) -> u128
        requires { is_part (lists self.now) part.now ≡ true }
        ensures { result ≡ mass (lists self.now) part.now };

    /// What an article holds of a candidate that is above in it, in micrograms.
    fn content(&self, article: &Code, substance: &Code) -> u128
        requires { IsHeldAbove (lists self.now) article.now substance.now }
        ensures { result ≡ content (lists self.now) article.now substance.now };

    /// The findings of a part: those on materials in order of material and then of rule, and behind them those on articles, in order
    /// of article and then of substance. It takes one step.
    fn findings<L: Ledger>(
        &self,
        alloc: Global,
        part: &Code,
        steps: &mut Steps<L>,
    ) -> Result<Vec<Finding>, OutOfMemory>
        requires { is_part (lists self.now) part.now ≡ true }
        ensures findings { IfOk result (λ list. map finding_of list.items ≡ findings (lists self.now) part.now) }
        ensures steps { steps.new ≡ steps.old + 1 };

    /// The chain from a part to what one of its findings is on. It takes a step for each line.
    fn chain<L: Ledger>(
        &self,
        alloc: Global,
        part: &Code,
        finding: &Finding,
        steps: &mut Steps<L>,
    ) -> Result<Codes, OutOfMemory>
        requires kept { is_part (lists self.now) part.now ≡ true }
        requires found { is_in (finding_of finding.now) (findings (lists self.now) part.now) ≡ true }
        ensures codes { IfOk result (λ codes. codes ≡ chain (lists self.now) part.now (holder_of (finding_of finding.now))) }
        ensures steps { IfOk result (λ codes. steps.new ≡ steps.old + chain_line_count codes) };

    /// What a part carries of each candidate that it carries, in order of substance.
    fn loads(&self, alloc: Global, part: &Code) -> Result<Vec<Load>, OutOfMemory>
        requires { is_part (lists self.now) part.now ≡ true }
        ensures { IfOk result (λ loads. loads.items ≡ loads_of (lists self.now) part.now) };

    /// What the products carry that were shipped in a year, of each candidate, in micrograms, in order of substance.
    fn tonnages(&self, alloc: Global, year: u16) -> Result<Vec<u128>, OutOfMemory>
        ensures { IfOk result (λ sums. sums.items ≡ map (λ candidate. tonnage (lists self.now) year candidate.substance) (lists self.now).candidates) };

    /// The lines that lead to a material or a part, in order of parent.
    fn users(&self, alloc: Global, code: &Code) -> Result<Vec<LineRow>, OutOfMemory>
        requires { is_kept (lists self.now) code.now ≡ true }
        ensures { IfOk result (λ lines. lines.items ≡ lines_to (lists self.now) code.now) };

    /// The products that reach a material or a part, or are it, in order of code.
    fn products_with(&self, alloc: Global, code: &Code) -> Result<Vec<ProductRow>, OutOfMemory>
        requires { is_kept (lists self.now) code.now ≡ true }
        ensures { IfOk result (λ products. products.items ≡ products_with (lists self.now) code.now) };
}
