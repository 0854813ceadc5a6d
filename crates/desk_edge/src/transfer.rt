ghost use Rattle.std.specs.Prelude.{◌≡◌, ℕ, ◌+◌, ◌<◌, ◌≤◌, List, length, IfOk, IsErr, OnOk, OnErr, IsErrOf};
ghost use Rattle.std.specs.Io.KnownBytes.{Consumes, Appends, IsAtEnd};
ghost use Rattle.desk_edge.specs.Faults.{CountsFaults};
ghost use Rattle.desk_edge.specs.Transfer.{AppendsBeginning, AppendsPart};

use crate::failed::Failed;
use crate::link::Link;
use desk_text::{Bytes, OutOfMemory};
use std::alloc::Global;

// How many bytes one call asks a link for.
const CHUNK: usize = 8192;

/// Why an input wasn't read.
#[derive(Clone, Copy, Debug, PartialEq, Eq)]
pub enum ReadFault {
    /// The link refused a call; it counted a fault.
    Failed,
    /// There was no memory for the bytes.
    OutOfMemory,
}

impl From<Failed> for ReadFault {
    ghost use Rattle.std.specs.Prelude.{◌≡◌};
    ghost use Rattle.desk_edge.specs.declared.transfer.ReadFault.TheVariants as fault;

    ghost from_gives = { λ _ e. e ≡ fault.Failed };

    fn from(_error: Failed) -> ReadFault {
        ReadFault::Failed
    }
}

impl From<OutOfMemory> for ReadFault {
    ghost use Rattle.std.specs.Prelude.{◌≡◌};
    ghost use Rattle.desk_edge.specs.declared.transfer.ReadFault.TheVariants as fault;

    ghost from_gives = { λ _ e. e ≡ fault.OutOfMemory };

    fn from(_error: OutOfMemory) -> ReadFault {
        ReadFault::OutOfMemory
    }
}

/// Reads a link to its end, or until one byte more than `limit` has come: the caller then knows
/// that the input is too long, and nothing more was asked for.
///
/// After an error the bytes that were read are gone.
pub fn read_up_to<L: Link>(alloc: Global, link: &mut L, limit: usize) -> Result<Bytes, ReadFault>
    requires { limit < usize.MAX }
    ensures bytes { IfOk result (λ bytes. Consumes (L.unread link.old) (L.unread link.new) bytes) }
    ensures whole { IfOk result (λ bytes. length bytes ≤ limit → IsAtEnd (L.unread link.new)) }
    ensures within { IfOk result (λ bytes. length bytes ≤ limit + 1) }

    // Whatever comes of it, no byte past the one after the limit is taken.
    ensures taken { (bytes : List ℕ) × Consumes (L.unread link.old) (L.unread link.new) bytes × (length bytes ≤ limit + 1) }

    // The byte after the limit ends the reading: no call after it can fail.
    ensures failed_within { IsErrOf result ReadFault.Failed →
        (bytes : List ℕ) × Consumes (L.unread link.old) (L.unread link.new) bytes × (length bytes ≤ limit) }
    ensures output_stays { L.written link.new ≡ L.written link.old }
    ensures faults { CountsFaults (IsErrOf result ReadFault.Failed) (L.faults link.old) (L.faults link.new) }
    ensures read_faults { CountsFaults (IsErrOf result ReadFault.Failed) (L.read_faults link.old) (L.read_faults link.new) }
{
    let mut bytes = Bytes::start(alloc);
    let mut chunk = [0; CHUNK];
    while bytes.len() <= limit {
        let wanted = (limit - bytes.len() + 1).min(CHUNK);
        let given = link.read(&mut chunk[..wanted])?;
        if given == 0 {
            break;
        }
        bytes.push_all(&chunk[..given])?;
    }
    Ok(bytes)
}

/// Writes all the bytes, in as many calls as the link wants.
///
/// After an error a beginning of the bytes is written, and not all of them.
pub fn write_all<L: Link>(link: &mut L, bytes: &[u8]) -> Result<(), Failed>
    ensures ok { OnOk result (Appends (L.written link.old) (L.written link.new) bytes.now) }
    ensures err { OnErr result (AppendsPart (L.written link.old) (L.written link.new) bytes.now) }
    ensures beginning { AppendsBeginning (L.written link.old) (L.written link.new) bytes.now }
    ensures input_stays { L.unread link.new ≡ L.unread link.old }
    ensures reads_stay { L.read_faults link.new ≡ L.read_faults link.old }
    ensures faults { CountsFaults (IsErr result) (L.faults link.old) (L.faults link.new) }
{
    let mut rest = bytes;
    while !rest.is_empty() {
        let taken = link.write(rest)?;
        rest = rest.split_at(taken).1;
    }
    Ok(())
}
