ghost use Rattle.std.specs.Prelude.{◌≡◌, ◌&&◌, not, true, length, map, vec_len, if◌then◌else◌, IfOk};
ghost use Rattle.desk_text.specs.Code.{same_code};
ghost use Rattle.desk_model.specs.Lists.{Lists};
ghost use Rattle.desk_findings.specs.Bill.{IsBill};
ghost use Rattle.desk_findings.specs.Reaches.{reaches};
ghost use Rattle.desk_totals.specs.Linked.{IsLinkedOf, are_codes_distinct};
ghost use Rattle.desk_totals.specs.Marks.{has_bit};
ghost use Rattle.desk_totals.specs.Rounds.{value_of};

use crate::bits::settled_bits;
use crate::links::Links;
use desk_text::{Code, OutOfMemory};
use std::alloc::Global;

impl Links {
    /// Whether one code reaches another. What is no node reaches nothing.
    ///
    /// It takes two passes over nodes and lines.
    pub fn does_reach(&self, alloc: Global, from: &Code, target: &Code) -> Result<bool, OutOfMemory>
        ensures { (t : Lists) → IsLinkedOf self.now t → IsBill t → IfOk result (λ does. does ≡ reaches t from.now target.now) }
    {
        let marks = self.marks(alloc, target)?;
        match self.place_of(from) {
            Some(place) => Ok(marks[place]),
            None => Ok(false),
        }
    }

    /// Of each node, in order, whether it reaches the target.
    ///
    /// It takes two passes over nodes and lines.
    pub fn marks(&self, alloc: Global, target: &Code) -> Result<Vec<bool>, OutOfMemory>
        ensures marks { (t : Lists) → IsLinkedOf self.now t → IsBill t
            → IfOk result (λ marks. marks.items ≡ map (λ code. reaches t code target.now) self.now.nodes) }
        ensures len { IfOk result (λ marks. vec_len marks ≡ length self.now.nodes) }
    {
        let own = bits_at_target(alloc, self.nodes(), target)?;
        let bits = settled_bits(alloc, self, own.as_slice())?;
        marks_above(alloc, self.nodes(), bits.as_slice(), target)
    }
}

/// The lowest bit at the target, and no bits at the other nodes.
pub(crate) fn bits_at_target(
    alloc: Global,
    nodes: &[Code],
    target: &Code,
) -> Result<Vec<u64>, OutOfMemory>
    ensures bits { IfOk result (λ bits. bits.items ≡ map (λ code. if same_code code target.now then 1 else 0) nodes.now) }
    ensures len { IfOk result (λ bits. length bits.items ≡ length nodes.now) }
{
    let mut bits = Vec::with_capacity(alloc, nodes.len())?;
    for node in nodes {
        bits.push_reserved(u64::from(node == target));
    }
    Ok(bits)
}

/// Of each node whether it has the lowest bit and isn't the target itself.
fn marks_above(
    alloc: Global,
    nodes: &[Code],
    bits: &[u64],
    target: &Code,
) -> Result<Vec<bool>, OutOfMemory>
    requires distinct { are_codes_distinct nodes.now ≡ true }
    requires bits { length bits.now ≡ length nodes.now }
    ensures marks { IfOk result (λ marks. marks.items
        ≡ map (λ code. has_bit 0 (value_of 0 nodes.now bits.now code) && not (same_code code target.now)) nodes.now) }
    ensures len { IfOk result (λ marks. vec_len marks ≡ length nodes.now) }
{
    let mut marks = Vec::with_capacity(alloc, nodes.len())?;
    for (place, node) in nodes.iter().enumerate() {
        marks.push_reserved(has_lowest(bits[place]) & (node != target));
    }
    Ok(marks)
}

/// Whether the lowest bit is set.
pub(crate) fn has_lowest(bits: u64) -> bool
    ensures { result ≡ has_bit 0 bits }
{
    bits & 1 == 1
}
