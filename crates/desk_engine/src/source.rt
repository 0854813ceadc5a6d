//! What answers look up, by what is stored of the tables.
ghost use Rattle.std.specs.Prelude.{◌≡◌, ◌≢◌, ◌++◌, ℕ, List, true, Ok, Err, IfErr, OnErr, OnOk};
ghost use Rattle.desk_history.specs.Sound.{Sound};
ghost use Rattle.desk_scratch.specs.Eval.{eval};
ghost use Rattle.desk_scratch.specs.Questions.{is_question_in_range};
ghost use Rattle.desk_scratch.specs.Steps.{HasStepped};
ghost use Rattle.desk_scratch.specs.declared.ask_fault.AskFault.TheVariants as ask;
ghost use Rattle.desk_engine.specs.Stored.{IsStoredOf};

use crate::chained::{stored_chain, stored_content};
use crate::node_values::stored_mass;
use crate::stored::Stored;
use crate::stored_loads::{stored_loads, stored_tonnages};
use crate::stored_uses::{stored_products, stored_users};
use crate::told::stored_findings;
use desk_graph::Steps;
use desk_model::{Codes, LineRow, ProductRow};
use desk_scratch::{AnswerSource, AskFault, Finding, Load, Question, answer_from};
use desk_tables::Tables;
use desk_text::{Bytes, Code, OutOfMemory};
use std::alloc::Global;
use std::marker::Model;
use std::sync::ledger::Ledger;

/// Sound tables with what is stored of them.
#[derive(Drop)]
struct StoredSource<'a> {
    tables: &'a Tables,
    stored: &'a Stored,
}

impl<'a> Model for StoredSource<'a> {
    ghost use Rattle.desk_engine.specs.Engine.{Engined, IsWhole};

    ghost Value = { Engined };

    ghost view = { λ source. record { desk = source.tables.now; stored = source.stored.now } };

    ghost invariant = { λ source. IsWhole (record { desk = source.tables.now; stored = source.stored.now }) };
}

impl<'a> AnswerSource for StoredSource<'a> {
    ghost use Rattle.desk_engine.specs.Engine.{lists_of};

    ghost lists = { lists_of };

    fn tables(&self) -> &Tables {
        self.tables
    }

    fn mass(&self, part: &Code) -> u128 {
        stored_mass(self.tables, self.stored, part)
    }

    fn content(&self, article: &Code, substance: &Code) -> u128 {
        stored_content(self.tables, self.stored, article, substance)
    }

    fn findings<L: Ledger>(
        &self,
        alloc: Global,
        part: &Code,
        steps: &mut Steps<L>,
    ) -> Result<Vec<Finding>, OutOfMemory> {
        stored_findings(alloc, self.tables, self.stored, part, steps)
    }

    fn chain<L: Ledger>(
        &self,
        alloc: Global,
        part: &Code,
        finding: &Finding,
        steps: &mut Steps<L>,
    ) -> Result<Codes, OutOfMemory> {
        stored_chain(alloc, self.tables, self.stored, part, finding, steps)
    }

    fn loads(&self, alloc: Global, part: &Code) -> Result<Vec<Load>, OutOfMemory> {
        stored_loads(alloc, self.tables, self.stored, part)
    }

    fn tonnages(&self, alloc: Global, year: u16) -> Result<Vec<u128>, OutOfMemory> {
        stored_tonnages(alloc, self.tables, self.stored, year)
    }

    fn users(&self, alloc: Global, code: &Code) -> Result<Vec<LineRow>, OutOfMemory> {
        stored_users(alloc, self.tables, self.stored, code)
    }

    fn products_with(&self, alloc: Global, code: &Code) -> Result<Vec<ProductRow>, OutOfMemory> {
        stored_products(alloc, self.tables, self.stored, code)
    }
}

/// Appends the answer to the question at sound tables, made of what is stored of them. On a product's compliance it takes a step for the
/// product, and one for each line of the chains that it prints.
///
/// `NoSuchCode`: the question is about a material, a part, or either, of which nothing is kept. `NotAProduct`: a RoHS question is about
/// a part that is no product. `OutOfMemory`: none was left for the answer. After an error `out` is as it was.
pub(crate) fn answer_stored<L: Ledger>(
    alloc: Global,
    tables: &Tables,
    stored: &Stored,
    question: &Question,
    out: &mut Bytes,
    steps: &mut Steps<L>,
) -> Result<(), AskFault>
    requires sound { Sound tables.now.lists }
    requires stored { IsStoredOf tables.now.lists stored.now }
    requires in_range { is_question_in_range question.now ≡ true }
    ensures answer { OnOk result ((text : List ℕ) × (eval tables.now.lists question.now ≡ Ok text) × (out.new ≡ out.old ++ text)) }
    ensures refusal { IfErr result (λ fault. fault ≢ ask.OutOfMemory → eval tables.now.lists question.now ≡ Err fault) }
    ensures unchanged { OnErr result (out.new ≡ out.old) }
    ensures steps { OnOk result (HasStepped tables.now.lists question.now steps.old steps.new) }
{
    answer_from(
        alloc,
        &StoredSource { tables, stored },
        question,
        out,
        steps,
    )
}
