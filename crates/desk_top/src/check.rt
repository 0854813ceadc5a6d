ghost use Rattle.std.specs.Prelude.{◌≡◌, ◌≢◌, ◌⊎◌, ◌+◌, ◌≤◌, List, ℕ, length, true, OnOk, IsErrOf, Err, Ok, Some};
ghost use Rattle.std.specs.Io.KnownBytes.{Consumes, IsAtEnd};
ghost use Rattle.desk_text.specs.Day.{is_askable};
ghost use Rattle.desk_model.specs.Declaration.{Declared};
ghost use Rattle.desk_model.specs.declared.edit.Edit.TheVariants.{Declare};
ghost use Rattle.desk_edge.specs.Faults.{CountsFaults, Rose};
ghost use Rattle.desk_top.specs.Answer.{Answers, IsInput, IsReadingTold, answer_of_check, answer_to_check, status_code};
ghost use Rattle.desk_top.specs.Check.{Agrees, check_outcome, input_limit, judged};
ghost use Rattle.desk_top.specs.Console.{TellsFaults};

use crate::refusal::Refusal;
use crate::status::Status;
use crate::tell::{answer_no_memory, tell, write_text};
use desk_declare::{DeclareFault, read_declaration};
use desk_edge::{Link, ReadFault, read_up_to};
use desk_law::KindOnDay;
use desk_model::Edit;
use desk_scratch::check_text;
use desk_tables::Tables;
use desk_text::{Bytes, OutOfMemory};
use std::alloc::Global;

/// The greatest number of bytes in a declaration that is checked.
pub const INPUT_LIMIT: usize = 65_536;

/// Why `check` has no answer to write.
#[derive(Debug, Drop)]
pub enum CheckFault {
    /// The input was read, and is refused.
    Refused(Refusal),
    /// The console refused a read; it counted a fault.
    Failed,
    /// There was no memory.
    OutOfMemory,
}

impl From<ReadFault> for CheckFault {
    ghost use Rattle.std.specs.Prelude.{◌≡◌};
    ghost use Rattle.desk_top.specs.Faults.{from_read_fault};

    ghost from_gives = { λ fault e. e ≡ from_read_fault fault };

    fn from(fault: ReadFault) -> CheckFault {
        match fault {
            ReadFault::Failed => CheckFault::Failed,
            ReadFault::OutOfMemory => CheckFault::OutOfMemory,
        }
    }
}

impl From<DeclareFault> for CheckFault {
    ghost use Rattle.std.specs.Prelude.{◌≡◌};
    ghost use Rattle.desk_top.specs.Faults.{from_declare_fault};

    ghost from_gives = { λ fault e. e ≡ from_declare_fault fault };

    fn from(fault: DeclareFault) -> CheckFault {
        match fault {
            DeclareFault::OutOfMemory => CheckFault::OutOfMemory,
            fault => CheckFault::Refused(Refusal::BadDeclaration(fault)),
        }
    }
}

impl From<OutOfMemory> for CheckFault {
    ghost use Rattle.std.specs.Prelude.{◌≡◌};
    ghost use Rattle.desk_top.specs.declared.check.CheckFault.TheVariants as fault;

    ghost from_gives = { λ _ e. e ≡ fault.OutOfMemory };

    fn from(_error: OutOfMemory) -> CheckFault {
        CheckFault::OutOfMemory
    }
}

/// Reads a declaration from the console and writes the answer to `check`.
///
/// It has no runtime, so it waits for nobody but the console's own calls, and returns.
pub fn answer_check<L: Link>(alloc: Global, check: &KindOnDay, console: &mut L) -> Status
    requires { is_askable check.now.day ≡ true }
    ensures words { result ≢ Status.BadWords }
    ensures reading { IsReadingTold check.now (status_code result) (L.unread console.old) (Rose (L.read_faults console.old) (L.read_faults console.new)) }
    ensures end { result ≡ Status.Done → IsAtEnd (L.unread console.new) }
    ensures answer { (input : List ℕ) × IsInput (L.unread console.old) input
        × Answers (answer_to_check check.now input) (status_code result)
        (L.written console.old) (L.written console.new) (Rose (L.faults console.old) (L.faults console.new)) }
    ensures taken { (bytes : List ℕ) × Consumes (L.unread console.old) (L.unread console.new) bytes × (length bytes ≤ input_limit + 1) }
    ensures fault_taken { result ≡ Status.ConsoleFault →
        (bytes : List ℕ) × Consumes (L.unread console.old) (L.unread console.new) bytes × (length bytes ≤ input_limit) }
    ensures faults { TellsFaults (result ≡ Status.Done) (result ≡ Status.ConsoleFault) (L.faults console.old) (L.faults console.new) }
{
    match check_input(alloc, check, console) {
        Ok(text) => write_text(console, text.as_slice()),
        Err(CheckFault::Refused(refusal)) => answer_refused(alloc, &refusal, console),
        Err(CheckFault::Failed) => Status::ConsoleFault,
        Err(CheckFault::OutOfMemory) => answer_no_memory(console),
    }
}

/// Writes why the input is refused.
fn answer_refused<L: Link>(alloc: Global, refusal: &Refusal, console: &mut L) -> Status
    ensures status { (result ≡ Status.Refused) ⊎ (result ≡ Status.OutOfMemory) }
    ensures answer { Answers (answer_of_check (Err refusal.now)) (status_code result)
        (L.written console.old) (L.written console.new) (Rose (L.faults console.old) (L.faults console.new)) }
    ensures input_stays { L.unread console.new ≡ L.unread console.old }
    ensures never_falls { L.faults console.old ≤ L.faults console.new }
{
    match refusal.line(alloc) {
        Ok(line) => tell(console, Status::Refused, line.as_bytes()),
        Err(_) => answer_no_memory(console),
    }
}

/// The answer to `check` for the bytes that the console gives. After an error nothing was written.
pub fn check_input<L: Link>(
    alloc: Global,
    check: &KindOnDay,
    console: &mut L,
) -> Result<Bytes, CheckFault>
    requires { is_askable check.now.day ≡ true }
    ensures answer { (input : List ℕ) × IsInput (L.unread console.old) input
        × (result ≢ Err CheckFault.Failed → Agrees result (check_outcome check.now input)) }
    ensures end { OnOk result (IsAtEnd (L.unread console.new)) }
    ensures taken { (bytes : List ℕ) × Consumes (L.unread console.old) (L.unread console.new) bytes × (length bytes ≤ input_limit + 1) }
    ensures within { OnOk result ((bytes : List ℕ) × Consumes (L.unread console.old) (L.unread console.new) bytes × (length bytes ≤ input_limit)) }
    ensures failed_within { IsErrOf result CheckFault.Failed →
        (bytes : List ℕ) × Consumes (L.unread console.old) (L.unread console.new) bytes × (length bytes ≤ input_limit) }
    ensures output_stays { L.written console.new ≡ L.written console.old }
    ensures faults { CountsFaults (IsErrOf result CheckFault.Failed) (L.faults console.old) (L.faults console.new) }
    ensures read_failed { IsErrOf result CheckFault.Failed → Rose (L.read_faults console.old) (L.read_faults console.new) }
{
    let bytes = read_up_to(alloc, console, INPUT_LIMIT)?;
    check_bytes(alloc, check, bytes.as_slice())
}

/// The answer to `check` for these bytes.
#[tactic(auto, unfolding(crate::specs::Check::check_outcome))]
pub fn check_bytes(alloc: Global, check: &KindOnDay, bytes: &[u8]) -> Result<Bytes, CheckFault>
    requires { is_askable check.now.day ≡ true }
    ensures answer { Agrees result (check_outcome check.now bytes.now) }
    ensures within { OnOk result (length bytes.now ≤ input_limit) }
{
    if bytes.len() > INPUT_LIMIT {
        return Err(CheckFault::Refused(Refusal::InputTooLong));
    }
    let edit = read_declaration(alloc, bytes)?;
    check_edit(alloc, check, &edit)
}

/// The answer to `check` for a declaration that was read.
fn check_edit(alloc: Global, check: &KindOnDay, edit: &Edit) -> Result<Bytes, CheckFault>
    requires askable { is_askable check.now.day ≡ true }
    requires declares { (d : Declared) × (edit.now ≡ Declare d) }
    ensures answer { (d : Declared) → edit.now ≡ Declare d → Agrees result (judged check.now (Ok d)) }
{
    let Edit::Declare { declaration } = edit else {
        unreachable!()
    };
    let tables = Tables::start(alloc)?;
    match tables.refused_at_start(declaration) {
        Some(fault) => Err(CheckFault::Refused(Refusal::Rule(fault))),
        None => Ok(check_text(alloc, &tables, check, declaration)?),
    }
}
