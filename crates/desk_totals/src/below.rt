ghost use Rattle.std.specs.Prelude.{◌≡◌, ◌<◌, ◌≤◌, ℕ, false, length, map, slice_index_or, IfOk};
ghost use Rattle.std.specs.List.{All};
ghost use Rattle.desk_model.specs.Lists.{Lists};
ghost use Rattle.desk_findings.specs.Bill.{IsBill};
ghost use Rattle.desk_findings.specs.Reaches.{is_or_reaches};
ghost use Rattle.desk_totals.specs.Linked.{IsLinkedOf};
ghost use Rattle.desk_totals.specs.Marks.{has_bit};
ghost use Rattle.desk_totals.specs.Places.{node_at};

use crate::bits::settled_bits;
use crate::counts::{BATCH, bits_at, is_set};
use crate::links::Links;
use desk_text::OutOfMemory;
use std::alloc::Global;

impl Links {
    /// Of each of these nodes whether the one at the first place is it or reaches it. All are told by their places.
    ///
    /// It takes, for each 64 of them, a few passes over nodes and lines.
    pub fn reached_among(
        &self,
        alloc: Global,
        from: usize,
        targets: &[usize],
    ) -> Result<Vec<bool>, OutOfMemory>
        requires from { from < length self.now.nodes }
        requires places { All (λ place. place < length self.now.nodes) targets.now }
        ensures { (t : Lists) → IsLinkedOf self.now t → IsBill t
            → IfOk result (λ marks. marks.items ≡ map (λ place. is_or_reaches t (node_at self.now.nodes from) (node_at self.now.nodes place)) targets.now) }
    {
        let mut marks = Vec::new(alloc);
        let mut rest = targets;
        while !rest.is_empty() {
            let (batch, later) = rest.split_at(rest.len().min(BATCH));
            let more = marks_of(alloc, self, from, batch)?;
            marks.extend_from_slice(more.as_slice())?;
            rest = later;
        }
        Ok(marks)
    }
}

/// Of each of at most 64 nodes whether the one at the first place is it or reaches it.
fn marks_of(
    alloc: Global,
    bill: &Links,
    from: usize,
    targets: &[usize],
) -> Result<Vec<bool>, OutOfMemory>
    requires from { from < length bill.now.nodes }
    requires places { All (λ place. place < length bill.now.nodes) targets.now }
    requires few { length targets.now ≤ 64 }
    ensures { (t : Lists) → IsLinkedOf bill.now t → IsBill t
        → IfOk result (λ marks. marks.items ≡ map (λ place. is_or_reaches t (node_at bill.now.nodes from) (node_at bill.now.nodes place)) targets.now) }
{
    let own = bits_at(alloc, bill.nodes().len(), targets)?;
    let bits = settled_bits(alloc, bill, own.as_slice())?;
    marks_in(alloc, bits[from], targets.len())
}

/// Of each of so many bits whether it is set.
fn marks_in(alloc: Global, bits: u64, count: usize) -> Result<Vec<bool>, OutOfMemory>
    requires { count ≤ 64 }
    ensures len { IfOk result (λ marks. length marks.items ≡ count) }
    ensures marks { IfOk result (λ marks. (bit : ℕ) → bit < count → slice_index_or marks.items bit false ≡ has_bit bit bits) }
{
    let mut marks = Vec::with_capacity(alloc, count)?;
    for bit in 0..count {
        marks.push_reserved(is_set(bits, bit));
    }
    Ok(marks)
}
