ghost use Rattle.std.specs.Prelude.{◌≡◌, ◌↔◌, ◌<◌, ◌≤◌, [], length, slice_index_or, true, false, IfOk, IsTrue};
ghost use Rattle.desk_rollup.specs.Numbers.{IsPlaceOf, Rises, has, hop_numbers, mark_number};

use crate::hop::Hop;
use desk_graph::OutOfMemory;
use std::alloc::Global;
use std::marker::Model;
use std::sync::ArcSlice;

/// A list of hops that has as many owners as need it: a plan shares the lists that stay as they are with what is kept, and copies share
/// all of them. Contracts see the list.
#[derive(Debug, Drop)]
pub struct Hops {
    /// The list, or none where it has no hop: that takes no memory.
    shared: Option<ArcSlice<Hop>>,
    /// How many hops it has, so that nobody goes to the list to learn that.
    count: usize,
}

impl Model for Hops {
    ghost use Rattle.std.specs.Prelude.{◌≡◌, List, [], length};
    ghost use Rattle.std.specs.Option.{option_map_or};
    ghost use Rattle.std.specs.Arc.{arc_slice_items};
    ghost use Rattle.desk_rollup.specs.declared.hop.Hop.{Hop};

    ghost Value = { List Hop };

    ghost view = { λ hops. option_map_or arc_slice_items hops.shared [] };

    ghost invariant = { λ hops. hops.count ≡ length (option_map_or arc_slice_items hops.shared []) };
}

impl Hops {
    /// No hops. It takes no memory.
    pub(crate) fn none() -> Hops
        ensures { result ≡ [] }
    {
        Hops {
            shared: None,
            count: 0,
        }
    }

    /// A list of its own with these hops.
    pub(crate) fn of(alloc: Global, hops: &[Hop]) -> Result<Hops, OutOfMemory>
        ensures { IfOk result (λ list. list ≡ hops.now) }
    {
        if hops.is_empty() {
            return Ok(Hops::none());
        }
        let shared = ArcSlice::from_slice(alloc, hops)?;
        Ok(Hops {
            shared: Some(shared),
            count: hops.len(),
        })
    }

    /// The same list with one more owner. It takes no memory.
    pub(crate) fn shared(&self) -> Result<Hops, OutOfMemory>
        ensures { IfOk result (λ list. list ≡ self.now) }
    {
        let Some(shared) = &self.shared else {
            return Ok(Hops::none());
        };
        let shared = shared.clone()?;
        Ok(Hops {
            shared: Some(shared),
            count: self.count,
        })
    }

    /// How many hops there are. The list isn't looked at.
    pub fn len(&self) -> usize
        ensures { result ≡ length self.now }
    {
        self.count
    }

    /// Whether there is no hop. The list isn't looked at.
    pub fn is_empty(&self) -> bool
        ensures { IsTrue result ↔ (self.now ≡ []) }
    {
        self.count == 0
    }

    /// The hops, as they stand here.
    pub fn as_slice(&self) -> &[Hop]
        ensures { result.now ≡ self.now }
    {
        match &self.shared {
            Some(shared) => shared.as_slice(),
            None => &[],
        }
    }
}

/// Whether both lists have the same hops.
pub fn are_same(first: &[Hop], second: &[Hop]) -> bool
    ensures { result ≡ true → first.now ≡ second.now }
{
    if first.len() != second.len() {
        return false;
    }
    for place in 0..first.len() {
        if !first[place].is(second[place]) {
            return false;
        }
    }
    true
}

/// Behind all hops whose marks have lesser numbers. It takes a binary search.
pub fn place_of(hops: &[Hop], number: u64) -> usize
    ensures within { result ≤ length hops.now }
    ensures place { Rises (hop_numbers hops.now) → IsPlaceOf number hops.now result }
{
    hops.partition_point(|hop| hop.mark.number() < number)
}

/// Whether one of the hops is of the mark with this number. Where they stand in order and one is, it is found.
pub fn has_mark(hops: &[Hop], number: u64) -> bool
    ensures found { result ≡ true → has (hop_numbers hops.now) number ≡ true }
    ensures exact { Rises (hop_numbers hops.now) → result ≡ has (hop_numbers hops.now) number }
{
    stands_at(hops, place_of(hops, number), number)
}

/// Whether a hop of the mark with this number stands at the place.
pub fn stands_at(hops: &[Hop], at: usize, number: u64) -> bool
    ensures within { result ≡ true → at < length hops.now }
    ensures there { result ≡ true → (none : Hop) → mark_number (slice_index_or hops.now at none).mark ≡ number }
    ensures other { result ≡ false → (none : Hop) → at < length hops.now → mark_number (slice_index_or hops.now at none).mark ≡ number → ⊥ }
{
    at < hops.len() && hops[at].mark.number() == number
}
