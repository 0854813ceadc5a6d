ghost use Rattle.std.specs.Prelude.{◌≡◌, ◌⊎◌, ◌≤◌, ◌++◌, codes, decimal, OnErr, OnOk, IsErr};
ghost use Rattle.std.specs.Io.KnownBytes.{Appends};
ghost use Rattle.desk_edge.specs.Faults.{CountsFaults, Rose};
ghost use Rattle.desk_edge.specs.Transfer.{AppendsBeginning, AppendsPart};
ghost use Rattle.desk_top.specs.Answer.{Answers, answer_to_doors_fault, answer_to_other_words, answer_to_store_fault, answer_to_unread_words, answer_without_memory, status_code};
ghost use Rattle.desk_top.specs.Console.{TellsFaults};

use crate::program_words::WordsFault;
use crate::status::Status;
use desk_edge::{Failed, Link, write_all};
use itoa::Buffer;

/// Writes the answer to words that are no command, and reads nothing.
pub fn answer_other_words<L: Link>(console: &mut L) -> Status
    ensures status { result ≡ Status.BadWords }
    ensures answer { Answers answer_to_other_words (status_code result)
        (L.written console.old) (L.written console.new) (Rose (L.faults console.old) (L.faults console.new)) }
    ensures input_stays { L.unread console.new ≡ L.unread console.old }
    ensures never_falls { L.faults console.old ≤ L.faults console.new }
{
    tell(console, Status::BadWords, b"desk: words\n")
}

/// Writes the answer to words that weren't read, and reads nothing.
pub fn answer_unread_words<L: Link>(fault: WordsFault, console: &mut L) -> Status
    ensures status { result ≡ (answer_to_unread_words fault).status }
    ensures answer { Answers (answer_to_unread_words fault) (status_code result)
        (L.written console.old) (L.written console.new) (Rose (L.faults console.old) (L.faults console.new)) }
    ensures input_stays { L.unread console.new ≡ L.unread console.old }
    ensures never_falls { L.faults console.old ≤ L.faults console.new }
{
    match fault {
        WordsFault::NotText => answer_other_words(console),
        WordsFault::OutOfMemory => answer_no_memory(console),
    }
}

/// Writes that there was no memory, and reads nothing.
pub fn answer_no_memory<L: Link>(console: &mut L) -> Status
    ensures status { result ≡ Status.OutOfMemory }
    ensures answer { Answers answer_without_memory (status_code result)
        (L.written console.old) (L.written console.new) (Rose (L.faults console.old) (L.faults console.new)) }
    ensures input_stays { L.unread console.new ≡ L.unread console.old }
    ensures never_falls { L.faults console.old ≤ L.faults console.new }
{
    tell(console, Status::OutOfMemory, b"desk: memory\n")
}

/// Writes that the store refused a call, and reads nothing.
pub fn answer_store_fault<L: Link>(console: &mut L) -> Status
    ensures status { result ≡ Status.StoreFault }
    ensures answer { Answers answer_to_store_fault (status_code result)
        (L.written console.old) (L.written console.new) (Rose (L.faults console.old) (L.faults console.new)) }
    ensures input_stays { L.unread console.new ≡ L.unread console.old }
    ensures never_falls { L.faults console.old ≤ L.faults console.new }
{
    tell(console, Status::StoreFault, b"desk: store\n")
}

/// Writes that the doors failed, and reads nothing.
pub fn answer_doors_fault<L: Link>(console: &mut L) -> Status
    ensures status { result ≡ Status.DoorsFault }
    ensures answer { Answers answer_to_doors_fault (status_code result)
        (L.written console.old) (L.written console.new) (Rose (L.faults console.old) (L.faults console.new)) }
    ensures input_stays { L.unread console.new ≡ L.unread console.old }
    ensures never_falls { L.faults console.old ≤ L.faults console.new }
{
    tell(console, Status::DoorsFault, b"desk: doors\n")
}

/// Writes the line that goes with a status, as far as the console takes it, and hands on the
/// status.
pub fn tell<L: Link>(console: &mut L, status: Status, line: &[u8]) -> Status
    ensures status { result ≡ status }
    ensures steady { (Rose (L.faults console.old) (L.faults console.new) → ⊥) → Appends (L.written console.old) (L.written console.new) line.now }
    ensures beginning { AppendsBeginning (L.written console.old) (L.written console.new) line.now }
    ensures input_stays { L.unread console.new ≡ L.unread console.old }
    ensures never_falls { L.faults console.old ≤ L.faults console.new }
{
    // Whoever reads the line may be gone: the status tells as much.
    let _ = write_all(console, line);
    status
}

/// Writes the whole text of a command that succeeds. 3: the console counted a fault.
pub fn write_text<L: Link>(console: &mut L, text: &[u8]) -> Status
    ensures status { (result ≡ Status.Done) ⊎ (result ≡ Status.ConsoleFault) }
    ensures answer { Answers (record { status = Status.Done; text = text.now }) (status_code result)
        (L.written console.old) (L.written console.new) (Rose (L.faults console.old) (L.faults console.new)) }
    ensures input_stays { L.unread console.new ≡ L.unread console.old }
    ensures faults { TellsFaults (result ≡ Status.Done) (result ≡ Status.ConsoleFault) (L.faults console.old) (L.faults console.new) }
{
    match write_all(console, text) {
        Ok(()) => Status::Done,
        Err(_) => Status::ConsoleFault,
    }
}

/// Writes these words, the number and the end of the line. It takes no memory. `Failed`: the console counted a fault; a part
/// of the line is written.
pub fn write_numbered<L: Link>(console: &mut L, words: &[u8], number: u64) -> Result<(), Failed>
    ensures ok { OnOk result (Appends (L.written console.old) (L.written console.new) (words.now ++ decimal number ++ codes "\n")) }
    ensures err { OnErr result (AppendsPart (L.written console.old) (L.written console.new) (words.now ++ decimal number ++ codes "\n")) }
    ensures beginning { AppendsBeginning (L.written console.old) (L.written console.new) (words.now ++ decimal number ++ codes "\n") }
    ensures input_stays { L.unread console.new ≡ L.unread console.old }
    ensures faults { CountsFaults (IsErr result) (L.faults console.old) (L.faults console.new) }
{
    write_all(console, words)?;
    let mut digits = Buffer::new();
    write_all(console, digits.format(number).as_bytes())?;
    write_all(console, b"\n")?;
    Ok(())
}
