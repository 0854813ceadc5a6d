ghost use Rattle.std.specs.Prelude.{◌≡◌, ◌==◌, ◌&&◌, ◌||◌, ◌<◌, ◌≤◌, ℕ, not, count_by, drop, length, map, slice_index, IfOk};
ghost use Rattle.std.specs.List.{All};
ghost use Rattle.desk_model.specs.Lists.{Lists};
ghost use Rattle.desk_findings.specs.Bill.{IsBill};
ghost use Rattle.desk_totals.specs.Linked.{IsLinkedOf};
ghost use Rattle.desk_totals.specs.Marks.{has_bit, reach_count};
ghost use Rattle.desk_totals.specs.Places.{node_at};

use crate::bits::settled_bits;
use crate::links::Links;
use desk_text::OutOfMemory;
use std::alloc::Global;

/// How many holders are counted for at once: one for each bit.
pub(crate) const BATCH: usize = 64;

impl Links {
    /// How many parts reach each of these nodes, which are told by their places.
    ///
    /// It takes, for each 64 of them, a few passes over nodes and lines, and a step for each of them and each part.
    pub fn reach_counts(&self, alloc: Global, holders: &[usize]) -> Result<Vec<usize>, OutOfMemory>
        requires { All (λ place. place < length self.now.nodes) holders.now }
        ensures { (t : Lists) → IsLinkedOf self.now t → IsBill t
            → IfOk result (λ counts. counts.items ≡ map (λ place. reach_count t (node_at self.now.nodes place)) holders.now) }
    {
        let mut counts = Vec::new(alloc);
        let mut rest = holders;
        while !rest.is_empty() {
            let (batch, later) = rest.split_at(rest.len().min(BATCH));
            let more = counts_of(alloc, self, batch)?;
            counts.extend_from_slice(more.as_slice())?;
            rest = later;
        }
        Ok(counts)
    }
}

/// How many parts reach each of at most 64 nodes.
fn counts_of(alloc: Global, bill: &Links, holders: &[usize]) -> Result<Vec<usize>, OutOfMemory>
    requires places { All (λ place. place < length bill.now.nodes) holders.now }
    requires few { length holders.now ≤ 64 }
    ensures { (t : Lists) → IsLinkedOf bill.now t → IsBill t
        → IfOk result (λ counts. counts.items ≡ map (λ place. reach_count t (node_at bill.now.nodes place)) holders.now) }
{
    let own = bits_at(alloc, bill.nodes().len(), holders)?;
    let mut bits = settled_bits(alloc, bill, own.as_slice())?;
    clear_bits(&mut bits, holders);
    counts_above(alloc, bits.as_slice(), bill.material_count(), holders.len())
}

/// Of each of so many bits how often it is set from a place on.
fn counts_above(
    alloc: Global,
    bits: &[u64],
    from: usize,
    count: usize,
) -> Result<Vec<usize>, OutOfMemory>
    requires from { from ≤ length bits.now }
    requires few { count ≤ 64 }
    ensures len { IfOk result (λ counts. length counts.items ≡ count) }
    ensures counts { IfOk result (λ counts. (bit : ℕ) → bit < count → slice_index counts.items bit ≡ count_by (has_bit bit) (drop from bits.now)) }
{
    let mut counts = Vec::with_capacity(alloc, count)?;
    for bit in 0..count {
        counts.push_reserved(count_bit(&bits[from..], bit));
    }
    Ok(counts)
}

/// How often the bit is set.
fn count_bit(bits: &[u64], bit: usize) -> usize
    requires { bit < 64 }
    ensures { result ≡ count_by (has_bit bit) bits.now }
{
    let mut count: usize = 0;
    for bits in bits {
        count += usize::from(is_set(*bits, bit));
    }
    count
}

/// A bit at each of at most 64 places: the first at the first of them, and so on.
pub(crate) fn bits_at(
    alloc: Global,
    count: usize,
    holders: &[usize],
) -> Result<Vec<u64>, OutOfMemory>
    requires places { All (λ place. place < count) holders.now }
    requires few { length holders.now ≤ 64 }
    ensures len { IfOk result (λ bits. length bits.items ≡ count) }
    ensures bits { IfOk result (λ bits. (bit place : ℕ) → bit < length holders.now → place < count
        → has_bit bit (slice_index bits.items place) ≡ (slice_index holders.now bit == place)) }
{
    let mut bits: Vec<u64> = vec![in alloc; 0; count]?;
    for (bit, place) in holders.iter().enumerate() {
        set_bit(bits.as_mut_slice(), *place, bit);
    }
    Ok(bits)
}

/// Clears the first bit at the first of the places, and so on.
fn clear_bits(bits: &mut Vec<u64>, holders: &[usize])
    requires places { All (λ place. place < length bits.old.items) holders.now }
    requires few { length holders.now ≤ 64 }
    ensures len { length bits.new.items ≡ length bits.old.items }
    ensures bits { (bit place : ℕ) → bit < length holders.now
        → has_bit bit (slice_index bits.new.items place) ≡ (has_bit bit (slice_index bits.old.items place) && not (slice_index holders.now bit == place)) }
{
    for (bit, place) in holders.iter().enumerate() {
        clear_bit(bits.as_mut_slice(), *place, bit);
    }
}

/// Sets the bit at the place.
fn set_bit(bits: &mut [u64], place: usize, bit: usize)
    requires place { place < length bits.old }
    requires bit { bit < 64 }
    ensures len { length bits.new ≡ length bits.old }
    ensures bits { (other node : ℕ)
        → has_bit other (slice_index bits.new node) ≡ (has_bit other (slice_index bits.old node) || (other == bit && place == node)) }
{
    bits[place] = bits[place] | 1 << bit;
}

/// Clears the bit at the place.
fn clear_bit(bits: &mut [u64], place: usize, bit: usize)
    requires place { place < length bits.old }
    requires bit { bit < 64 }
    ensures len { length bits.new ≡ length bits.old }
    ensures bits { (other node : ℕ) → other < 64
        → has_bit other (slice_index bits.new node) ≡ (has_bit other (slice_index bits.old node) && not (other == bit && place == node)) }
{
    bits[place] = bits[place] & !(1 << bit);
}

/// Whether the bit is set.
pub(crate) fn is_set(bits: u64, bit: usize) -> bool
    requires { bit < 64 }
    ensures { result ≡ has_bit bit bits }
{
    bits >> bit & 1 == 1
}
