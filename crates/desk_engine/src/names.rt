ghost use Rattle.std.specs.Prelude.{◌≡◌, ◌++◌, [], ◌∷◌, IfOk, unwrap_or, if◌then◌else◌};
ghost use Rattle.std.specs.List.{list_any};
ghost use Rattle.desk_text.specs.Code.{same_code};
ghost use Rattle.desk_model.specs.Effect.{with_edit_entered};
ghost use Rattle.desk_model.specs.Lists.{Lists};
ghost use Rattle.desk_history.specs.History.{PassesRows};
ghost use Rattle.desk_history.specs.Sound.{Sound};
ghost use Rattle.desk_engine.specs.Names.{AreFewNames, GrowTo, new_candidate};

use desk_model::{Codes, Edit, ListOf};
use desk_text::{Code, OutOfMemory};
use std::alloc::Global;

/// The names of substances after an edit, where one is new.
pub(crate) fn names_after(
    alloc: Global,
    names: &[Code],
    edit: &Edit,
) -> Result<Option<Codes>, OutOfMemory>
    ensures { (t : Lists) → Sound t → PassesRows t edit.now → AreFewNames t names.now →
        IfOk result (λ new. GrowTo t (with_edit_entered t edit.now) names.now (unwrap_or new names.now)) }
{
    match new_candidate(edit) {
        Some(substance) => names_with(alloc, names, &substance),
        None => Ok(None),
    }
}

/// The substance that an edit puts on the candidate list, if it does.
#[tactic(auto, unfolding(crate::specs::Names::new_candidate))]
fn new_candidate(edit: &Edit) -> Option<Code>
    ensures { result ≡ new_candidate edit.now }
{
    match edit {
        Edit::Candidate { substance, .. } => Some(*substance),
        _ => None,
    }
}

/// The names with the substance, where it is new.
fn names_with(alloc: Global, names: &[Code], substance: &Code) -> Result<Option<Codes>, OutOfMemory>
    ensures { IfOk result (λ new. unwrap_or new names.now ≡ (if list_any (λ listed. same_code listed substance.now) names.now then names.now else names.now ++ substance.now ∷ [])) }
{
    if is_listed(names, substance) {
        return Ok(None);
    }
    Ok(Some(names_and(alloc, names, substance)?))
}

/// Whether the substance is named.
fn is_listed(names: &[Code], substance: &Code) -> bool
    ensures { result ≡ list_any (λ listed. same_code listed substance.now) names.now }
{
    names.iter().any(|listed| listed.cmp(substance).is_eq())
}

/// The names with one more behind them.
fn names_and(alloc: Global, names: &[Code], substance: &Code) -> Result<Codes, OutOfMemory>
    ensures { IfOk result (λ new. new ≡ names.now ++ substance.now ∷ []) }
{
    let mut list = Vec::from_slice(alloc, names)?;
    list.push(*substance)?;
    Ok(ListOf::new(list))
}

/// The new names, or else those of before.
pub(crate) fn chosen<'a>(new: &'a Option<Codes>, names: &'a [Code]) -> &'a [Code]
    ensures { result.now ≡ unwrap_or new.now names.now }
{
    match new {
        Some(list) => list.as_slice(),
        None => names,
    }
}
