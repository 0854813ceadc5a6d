ghost use Rattle.std.specs.Prelude.{◌≡◌, ◌≤◌, [], ◌∷◌, IfOk, OnOk};
ghost use Rattle.desk_sample.specs.Sample.{article, assembly, candidates, declaration_edit, each_to, others, product, sample_edits, shipment};
ghost use Rattle.desk_sample.specs.Ticketed.{HasGainedAll};

use crate::assembly::{push_article, push_assembly};
use crate::codes::numbered;
use crate::declared::{declared, word};
use crate::pushes::{push_candidate, push_product, push_ship};
use desk_law::Kind;
use desk_model::Edit;
use desk_text::{Day, OutOfMemory};
use std::alloc::Global;

/// The kinds of the products, in order.
const KINDS: [Kind; 5] = [
    Kind::Telecommunications,
    Kind::IndustrialInstrument,
    Kind::Toy,
    Kind::Other,
    Kind::MedicalDevice,
];

/// The edits of a sample of `n` materials, from 1 to 2,000, in the order in which tables take them: `n` declarations of a material
/// each, `n` articles, assemblies of eight articles each, of which each but the first holds an earlier one twice, up to five products,
/// two candidates, and a shipment of each product. Two samples of one number are equal.
///
/// `OutOfMemory`: none was left for the edits.
pub fn sample(alloc: Global, n: u64) -> Result<Vec<Edit>, OutOfMemory>
    requires least { 1 ≤ n }
    requires greatest { n ≤ 2000 }
    ensures { IfOk result (λ edits. edits.items ≡ sample_edits n) }
{
    let mut others = Vec::new(alloc);
    push_others(alloc, &mut others, n)?;
    let mut edits = declarations(alloc, n)?;
    edits.append(&mut others)?;
    Ok(edits)
}

/// The edits that are no declarations.
fn push_others(alloc: Global, edits: &mut Vec<Edit>, n: u64) -> Result<(), OutOfMemory>
    requires { n ≤ 2000 }
    ensures { OnOk result (HasGainedAll (others n) edits.old.items edits.new.items) }
{
    let assemblies = n.div_ceil(8);
    let products = assemblies.min(5);
    push_articles(alloc, edits, n)?;
    push_assemblies(alloc, edits, n, assemblies)?;
    push_products(alloc, edits, products)?;
    push_candidates(alloc, edits)?;
    push_shipments(alloc, edits, products)?;
    Ok(())
}

/// The declarations.
#[tactic(auto, using(crate::proofs::Gained::each_more))]
fn declarations(alloc: Global, n: u64) -> Result<Vec<Edit>, OutOfMemory>
    requires { n ≤ 2000 }
    ensures { IfOk result (λ edits. edits.items ≡ each_to n (λ i. declaration_edit i ∷ [])) }
{
    let mut edits = Vec::new(alloc);
    let mut number = 0;
    'declarations: while number < n {
        number += 1;
        edits.push(declared(alloc, number)?)?;
    }
    Ok(edits)
}

/// The articles with their lines.
fn push_articles(alloc: Global, edits: &mut Vec<Edit>, n: u64) -> Result<(), OutOfMemory>
    requires { n ≤ 2000 }
    ensures { OnOk result (HasGainedAll (each_to n (article n)) edits.old.items edits.new.items) }
{
    let mut number = 0;
    'articles: while number < n {
        number += 1;
        push_article(alloc, edits, n, number)?;
    }
    Ok(())
}

/// The assemblies with their lines.
fn push_assemblies(
    alloc: Global,
    edits: &mut Vec<Edit>,
    n: u64,
    count: u64,
) -> Result<(), OutOfMemory>
    requires most { n ≤ 2000 }
    requires count { count ≤ 250 }
    ensures { OnOk result (HasGainedAll (each_to count (assembly n)) edits.old.items edits.new.items) }
{
    let mut number = 0;
    'assemblies: while number < count {
        number += 1;
        push_assembly(alloc, edits, n, number)?;
    }
    Ok(())
}

/// The first assemblies as products.
fn push_products(alloc: Global, edits: &mut Vec<Edit>, count: u64) -> Result<(), OutOfMemory>
    requires { count ≤ 5 }
    ensures { OnOk result (HasGainedAll (each_to count product) edits.old.items edits.new.items) }
{
    let mut number = 0;
    'products: while number < count {
        let kind = KINDS[number as usize];
        number += 1;
        push_product(alloc, edits, numbered(b'B', number), kind)?;
    }
    Ok(())
}

/// The two candidates.
fn push_candidates(alloc: Global, edits: &mut Vec<Edit>) -> Result<(), OutOfMemory>
    ensures { OnOk result (HasGainedAll candidates edits.old.items edits.new.items) }
{
    let (dehp, lead) = (word(b"dehp"), word(b"lead"));
    push_candidate(alloc, edits, dehp, Day::new(2008, 10, 28))?;
    push_candidate(alloc, edits, lead, Day::new(2018, 6, 27))
}

/// What is shipped of each product.
fn push_shipments(alloc: Global, edits: &mut Vec<Edit>, count: u64) -> Result<(), OutOfMemory>
    requires { count ≤ 5 }
    ensures { OnOk result (HasGainedAll (each_to count shipment) edits.old.items edits.new.items) }
{
    let mut number = 0;
    'shipments: while number < count {
        number += 1;
        push_ship(alloc, edits, numbered(b'B', number), 2024, 1000 * number)?;
    }
    Ok(())
}
