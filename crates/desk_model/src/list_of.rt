ghost use Rattle.std.specs.Prelude.{◌≡◌, ◌≢◌, Err, IfErr, IfOk, Ok, OnErr, OnOk};
ghost use Rattle.desk_rows.specs.Rows.{IsByKey};
ghost use Rattle.desk_law.specs.Claim.{claim_cmp};
ghost use Rattle.desk_model.specs.Declaring.{with_new};

use crate::DeclError;
use crate::enter::{enter, enter_claim};
use crate::limits::CLAIM_LIMIT;
use desk_law::Claim;
use desk_rows::Keyed;
use desk_text::{Code, OutOfMemory};
use std::alloc::Global;
use std::marker::Model;

/// A list, which contracts see as one. It is made of a vector and gives it back, both without memory.
#[derive(Debug, Drop)]
pub struct ListOf<T> {
    items: Vec<T>,
}

/// Codes in a row, such as those of a chain.
pub type Codes = ListOf<Code>;

impl<T> Model for ListOf<T> {
    ghost use Rattle.std.specs.Prelude.{List};

    ghost Value = { List T };

    ghost view = { λ l. l.items.items };
}

impl<T> ListOf<T> {
    /// The list of the vector's items.
    pub fn new(list: Vec<T>) -> ListOf<T>
        ensures { result ≡ list.items }
    {
        ListOf { items: list }
    }

    /// The items, in order.
    pub fn as_slice(&self) -> &[T]
        ensures { result.now ≡ self.now }
    {
        self.items.as_slice()
    }

    /// The items as a vector.
    pub fn into_vec(self) -> Vec<T>
        ensures { result.items ≡ self }
    {
        self.items
    }
}

impl<T: Copy> ListOf<T> {
    /// The same list once more.
    pub fn copied(&self, alloc: Global) -> Result<ListOf<T>, OutOfMemory>
        ensures { IfOk result (λ list. list ≡ self.now) }
    {
        let mut items = Vec::with_capacity(alloc, self.items.len())?;
        for item in self.items.as_slice() {
            items.push_reserved(*item);
        }
        Ok(ListOf { items })
    }
}

impl<R: Keyed> ListOf<R> {
    /// Puts the new row into its place, unless its key is there or the list is full.
    pub(crate) fn enter(&mut self, new: R, limit: usize) -> Result<(), DeclError>
        requires { IsByKey R.key R.Key.cmp self.old }
        ensures ok { OnOk result (with_new R.key R.Key.cmp limit new self.old ≡ Ok self.new) }
        ensures error { IfErr result (λ e. e ≢ DeclError.OutOfMemory
            → with_new R.key R.Key.cmp limit new self.old ≡ Err e) }
        ensures err { OnErr result (self.new ≡ self.old) }
    {
        enter(&mut self.items, new, limit)
    }
}

impl ListOf<Claim> {
    /// Puts the new claim into its place, unless it is there or there are as many as a material may have.
    pub(crate) fn enter_claim(&mut self, new: Claim) -> Result<(), DeclError>
        requires { IsByKey (λ claim. claim) claim_cmp self.old }
        ensures ok { OnOk result (with_new (λ claim. claim) claim_cmp CLAIM_LIMIT new self.old ≡ Ok self.new) }
        ensures error { IfErr result (λ e. e ≢ DeclError.OutOfMemory
            → with_new (λ claim. claim) claim_cmp CLAIM_LIMIT new self.old ≡ Err e) }
        ensures err { OnErr result (self.new ≡ self.old) }
    {
        enter_claim(&mut self.items, new)
    }
}
