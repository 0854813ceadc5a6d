ghost use Rattle.std.specs.Prelude.{◌≡◌, ◌≢◌, ◌<◌, ◌≤◌, insert, length, IfErr, MatchResult, OnErr, OnOk};
ghost use Rattle.desk_rows.specs.Place.{Enters, Replaces};
ghost use Rattle.desk_rows.specs.Rows.{IsByKey};
ghost use Rattle.desk_law.specs.Claim.{claim_cmp};
ghost use Rattle.desk_model.specs.Declaring.{with_new};

use crate::DeclError;
use crate::limits::CLAIM_LIMIT;
use desk_law::Claim;
use desk_rows::{Keyed, place_of_row};

/// Puts the new row into its place in a list by key, unless its key is there or the list is full.
pub fn enter<R: Keyed>(rows: &mut Vec<R>, new: R, limit: usize) -> Result<(), DeclError>
    requires { IsByKey R.key R.Key.cmp rows.old.items }
    ensures ok { OnOk result (with_new R.key R.Key.cmp limit new rows.old.items ≡ Ok rows.new.items) }
    ensures error { IfErr result (λ e. e ≢ DeclError.OutOfMemory
        → with_new R.key R.Key.cmp limit new rows.old.items ≡ Err e) }
    ensures err { OnErr result (rows.new.items ≡ rows.old.items) }
{
    match place_of_row(rows.as_slice(), &new) {
        Ok(_) => Err(DeclError::Repeated),
        Err(at) => insert_within(rows, at, new, limit),
    }
}

/// Puts the new claim into its place, unless it is there or there are as many as a material may have.
pub fn enter_claim(claims: &mut Vec<Claim>, new: Claim) -> Result<(), DeclError>
    requires { IsByKey (λ claim. claim) claim_cmp claims.old.items }
    ensures ok { OnOk result (with_new (λ claim. claim) claim_cmp CLAIM_LIMIT new claims.old.items ≡ Ok claims.new.items) }
    ensures error { IfErr result (λ e. e ≢ DeclError.OutOfMemory
        → with_new (λ claim. claim) claim_cmp CLAIM_LIMIT new claims.old.items ≡ Err e) }
    ensures err { OnErr result (claims.new.items ≡ claims.old.items) }
{
    match place_of_claim(claims.as_slice(), &new) {
        Ok(_) => Err(DeclError::Repeated),
        Err(at) => insert_within(claims, at, new, CLAIM_LIMIT),
    }
}

/// Puts the new row into the place, unless the list is full.
fn insert_within<R: Drop>(
    rows: &mut Vec<R>,
    at: usize,
    new: R,
    limit: usize,
) -> Result<(), DeclError>
    requires { at ≤ length rows.old.items }
    ensures ok { OnOk result (rows.new.items ≡ insert rows.old.items at new) }
    ensures room { OnOk result (length rows.old.items < limit) }
    ensures full { IfErr result (λ e. e ≢ DeclError.OutOfMemory
        → (e ≡ DeclError.TooMany) × (limit ≤ length rows.old.items)) }
    ensures err { OnErr result (rows.new.items ≡ rows.old.items) }
{
    if rows.len() >= limit {
        return Err(DeclError::TooMany);
    }
    rows.insert(at, new)?;
    Ok(())
}

/// The place of the claim, or else the place where it would go.
fn place_of_claim(claims: &[Claim], new: &Claim) -> Result<usize, usize>
    requires { IsByKey (λ claim. claim) claim_cmp claims.now }
    ensures { MatchResult result (Replaces (λ claim. claim) claim_cmp new.now claims.now) (Enters (λ claim. claim) claim_cmp new.now claims.now) }
{
    claims.binary_search(new)
}
