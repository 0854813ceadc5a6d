ghost use Rattle.std.specs.Prelude.{◌≡◌, IfOk, Ok, is_ok, map, true};
ghost use Rattle.desk_text.specs.Cas.{cas_of};
ghost use Rattle.desk_law.specs.Rule.{rule_code};
ghost use Rattle.desk_history.specs.Sound.{Sound};
ghost use Rattle.desk_model.specs.Start.{base_cas, base_member, base_name, base_substance, rules_by_code, start};

use crate::Tables;
use crate::ten_tables::TenTables;
use desk_law::Rule;
use desk_model::limits::WHOLE_FACTOR;
use desk_model::{MemberRow, SubstanceRow};
use desk_rows::Table;
use desk_text::{Cas, Code, Name, OutOfMemory};
use std::alloc::Global;

impl Tables {
    /// The tables that a desk starts with: the ten base substances, each a member of its own rule, and nothing else.
    ///
    /// `OutOfMemory`: none was left for them.
    pub fn start(alloc: Global) -> Result<Tables, OutOfMemory>
        ensures lists { IfOk result (λ tables. tables.lists ≡ start) }
        ensures sound { IfOk result (λ tables. Sound tables.lists) }
    {
        let tables = base_tables(alloc)?;
        Ok(tables)
    }
}

/// The base substances and their members alone.
#[tactic(auto, unfolding(desk_model::specs::Start::start))]
fn base_tables(alloc: Global) -> Result<Tables, OutOfMemory>
    ensures { IfOk result (λ tables. tables.lists ≡ start) }
{
    let mut tables = TenTables::new(alloc);
    tables.substances = base_substances(alloc)?;
    tables.members = base_members(alloc)?;
    Ok(Tables { tables, text: 0 })
}

/// The base substances.
fn base_substances(alloc: Global) -> Result<Table<SubstanceRow>, OutOfMemory>
    ensures { IfOk result (λ table. table.rows ≡ map base_substance rules_by_code) }
{
    let mut rows = Vec::with_capacity(alloc, Rule::BASE.len())?;
    for rule in Rule::BASE {
        rows.push_reserved(base_substance(alloc, rule)?);
    }
    let mut table = Table::new(alloc);
    table.put_all(rows)?;
    Ok(table)
}

/// What the rules count of the base substances.
fn base_members(alloc: Global) -> Result<Table<MemberRow>, OutOfMemory>
    ensures { IfOk result (λ table. table.rows ≡ map base_member rules_by_code) }
{
    let mut rows = Vec::with_capacity(alloc, Rule::BASE.len())?;
    for rule in Rule::BASE {
        rows.push_reserved(base_member(rule));
    }
    let mut table = Table::new(alloc);
    table.put_all(rows)?;
    Ok(table)
}

/// What a rule counts of its base substance.
fn base_member(rule: Rule) -> MemberRow
    ensures { result ≡ base_member rule }
{
    MemberRow {
        substance: base_code(rule),
        rule,
        factor: WHOLE_FACTOR as u32,
    }
}

/// The base substance of a rule.
fn base_substance(alloc: Global, rule: Rule) -> Result<SubstanceRow, OutOfMemory>
    ensures { IfOk result (λ row. row ≡ base_substance rule) }
{
    let name = match Name::read(alloc, base_name(rule).as_bytes()) {
        Ok(name) => name,
        // The text is a name, so that memory alone can have been wanting.
        Err(_) => return Err(OutOfMemory),
    };
    Ok(SubstanceRow {
        code: base_code(rule),
        name,
        cas: base_cas(rule),
    })
}

/// The code of a rule's base substance.
fn base_code(rule: Rule) -> Code
    ensures { result ≡ rule_code rule }
{
    Code::read(rule.code().as_bytes()).unwrap()
}

/// The name of a rule's base substance.
fn base_name(rule: Rule) -> &'static str
    ensures { result.now ≡ base_name rule }
{
    match rule {
        Rule::Lead => "Lead",
        Rule::Mercury => "Mercury",
        Rule::Cadmium => "Cadmium",
        Rule::ChromiumVi => "Hexavalent chromium",
        Rule::Pbb => "Polybrominated biphenyls (PBB)",
        Rule::Pbde => "Polybrominated diphenyl ethers (PBDE)",
        Rule::Dehp => "Bis(2-ethylhexyl) phthalate (DEHP)",
        Rule::Bbp => "Butyl benzyl phthalate (BBP)",
        Rule::Dbp => "Dibutyl phthalate (DBP)",
        Rule::Dibp => "Diisobutyl phthalate (DIBP)",
    }
}

/// The CAS registry number of a rule's base substance; groups of substances have none.
#[tactic(auto, unfolding(desk_text::specs::Cas::cas_of))]
fn base_cas(rule: Rule) -> Option<Cas>
    ensures { result ≡ base_cas rule }
{
    match rule {
        Rule::Lead => Some(cas("7439-92-1")),
        Rule::Mercury => Some(cas("7439-97-6")),
        Rule::Cadmium => Some(cas("7440-43-9")),
        Rule::ChromiumVi => Some(cas("18540-29-9")),
        Rule::Pbb | Rule::Pbde => None,
        Rule::Dehp => Some(cas("117-81-7")),
        Rule::Bbp => Some(cas("85-68-7")),
        Rule::Dbp => Some(cas("84-74-2")),
        Rule::Dibp => Some(cas("84-69-5")),
    }
}

/// The CAS registry number that the text spells.
fn cas(text: &str) -> Cas
    requires { is_ok (cas_of text.now) ≡ true }
    ensures { Ok result ≡ cas_of text.now }
{
    Cas::read(text.as_bytes()).unwrap()
}
