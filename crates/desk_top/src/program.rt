ghost use Rattle.std.specs.Prelude.{◌≡◌, ◌≢◌, ◌⊎◌, map, string_bytes, IfOk, IfErr, None, Some};
ghost use Rattle.desk_edge.specs.Faults.{Rose};
ghost use Rattle.desk_law.specs.declared.kind_on_day.KindOnDay.{KindOnDay};
ghost use Rattle.desk_top.specs.Answer.{Answers, IsReadingTold, answer_to_other_words, answer_to_unread_words, status_code};
ghost use Rattle.desk_top.specs.Console.{TellsFaults, console_step};
ghost use Rattle.desk_top.specs.Run.{Does, OtherStoresStay, store_in, store_of};
ghost use Rattle.desk_top.specs.Serve.{Doorway, doorway_step};
ghost use Rattle.desk_top.specs.Sorted.{command_at_once, command_over_clerk};
ghost use Rattle.desk_top.specs.Store.{shelf_step};
ghost use Rattle.desk_words.specs.Commands.{HasBounds, command_of};
ghost use Rattle.desk_words.specs.declared.command.Serve.{Serve};

use crate::audit::answer_audit;
use crate::check::answer_check;
use crate::export::answer_export;
use crate::import::answer_import;
use crate::program_words::WordsFault;
use crate::sample::answer_sample;
use crate::serve::answer_serve;
use crate::session::answer_session;
use crate::sorted::{AtOnce, OverClerk, Sorted, sorted_command};
use crate::status::Status;
use crate::tell::{answer_no_memory, answer_other_words, answer_unread_words};
use desk_edge::{Doors, Link, Shelf};
use desk_words::{Command, CommandFault, read_command};
use std::alloc::Global;
use std::sync::Wait;
use std::thread::Threads;

/// Does all that the program does, for its words without its own name, and answers the exit status.
///
/// 0 the whole answer was written, or the stream was served. 2 the words are no command line. 3 only where the console counted a
/// fault. 4 the store refused a call. 5 the store's records aren't those of sound tables. 6 the input was read, and is refused or cut,
/// or the store that an import is to fill keeps something. 7 the doors counted a fault. 8 want of memory, which may come for any words. A fault while the line of 2,
/// 4, 5, 6, 7 or 8 is written changes no status.
pub fn run<R: Wait + Sync + Threads, L: Link, S: Shelf, D: Doors + Send>(
    rt: &R,
    alloc: Global,
    words: &Vec<String>,
    console: &mut L,
    shelf: &mut S,
    doors: &mut D,
) -> u8
    // Words that are no command line are answered, and nothing is read.
    ensures bad_words { result ≡ status_code Status.BadWords → command_of (map string_bytes words.now.items) ≡ None }
    ensures no_command { command_of (map string_bytes words.now.items) ≡ None → (result ≡ status_code Status.BadWords) ⊎ (result ≡ status_code Status.OutOfMemory) }
    ensures other_words { command_of (map string_bytes words.now.items) ≡ None → (L.unread console.new ≡ L.unread console.old)
        × Answers answer_to_other_words result (L.written console.old) (L.written console.new) (Rose (L.faults console.old) (L.faults console.new)) }

    // A command does what it is for.
    ensures command { (command : Command) → command_of (map string_bytes words.now.items) ≡ Some command
        → Does (shelf_step S.Tells S.content S.count S.faults shelf.old shelf.new)
        (doorway_step D.faults D.taken D.is_closed doors.old doors.new)
        command result
        (console_step L.unread L.written L.faults console.old console.new) }
    ensures known { (status : Status) × (result ≡ status_code status) }

    // A check whose refusal can't be written ends as refused.
    ensures reading { (check : KindOnDay) → command_of (map string_bytes words.now.items) ≡ Some (Command.Check check)
        → IsReadingTold check result (L.unread console.old) (Rose (L.read_faults console.old) (L.read_faults console.new)) }

    // No store but the one that the words name is changed, and where they name none the shelf stays as it is.
    ensures others { OtherStoresStay (store_in (map string_bytes words.now.items)) (shelf_step S.Tells S.content S.count S.faults shelf.old shelf.new) }
    ensures shelf_stays { store_in (map string_bytes words.now.items) ≡ None → shelf.new ≡ shelf.old }
    ensures doors_stay { ((serve : Serve) → command_of (map string_bytes words.now.items) ≢ Some (Command.Serve serve)) → doors.new ≡ doors.old }
    ensures faults { TellsFaults (result ≡ status_code Status.Done) (result ≡ status_code Status.ConsoleFault) (L.faults console.old) (L.faults console.new) }
{
    match read_command(alloc, words.as_slice()) {
        Ok(command) => follow(rt, alloc, command, console, shelf, doors).code(),
        Err(CommandFault::NoCommand) => answer_other_words(console).code(),
        Err(CommandFault::OutOfMemory) => answer_no_memory(console).code(),
    }
}

/// Does what the command is for. What waits for nobody is done by a call that has no runtime, and the other call takes no such command.
fn follow<R: Wait + Sync + Threads, L: Link, S: Shelf, D: Doors + Send>(
    rt: &R,
    alloc: Global,
    command: Command,
    console: &mut L,
    shelf: &mut S,
    doors: &mut D,
) -> Status
    requires { HasBounds command }
    ensures command { Does (shelf_step S.Tells S.content S.count S.faults shelf.old shelf.new)
        (doorway_step D.faults D.taken D.is_closed doors.old doors.new)
        command (status_code result)
        (console_step L.unread L.written L.faults console.old console.new) }
    ensures reading { (check : KindOnDay) → command ≡ Command.Check check
        → IsReadingTold check (status_code result) (L.unread console.old) (Rose (L.read_faults console.old) (L.read_faults console.new)) }
    ensures others { OtherStoresStay (store_of command) (shelf_step S.Tells S.content S.count S.faults shelf.old shelf.new) }
    ensures shelf_stays { store_of command ≡ None → shelf.new ≡ shelf.old }
    ensures doors_stay { ((serve : Serve) → command ≢ Command.Serve serve) → doors.new ≡ doors.old }
    ensures words { result ≢ Status.BadWords }
    ensures faults { TellsFaults (result ≡ Status.Done) (result ≡ Status.ConsoleFault) (L.faults console.old) (L.faults console.new) }
{
    match sorted_command(command) {
        Sorted::AtOnce(command) => do_at_once(alloc, &command, console, shelf),
        Sorted::OverClerk(command) => do_over_clerk(rt, alloc, &command, console, shelf, doors),
    }
}

/// Does what a command is for that opens no clerk.
///
/// It has no runtime, so it waits for nobody but the calls of the console and of the store, and returns.
fn do_at_once<L: Link, S: Shelf>(
    alloc: Global,
    command: &AtOnce,
    console: &mut L,
    shelf: &mut S,
) -> Status
    requires { HasBounds (command_at_once command.now) }
    ensures command { (doors : Doorway) → Does (shelf_step S.Tells S.content S.count S.faults shelf.old shelf.new) doors
        (command_at_once command.now) (status_code result)
        (console_step L.unread L.written L.faults console.old console.new) }
    ensures reading { (check : KindOnDay) → command_at_once command.now ≡ Command.Check check
        → IsReadingTold check (status_code result) (L.unread console.old) (Rose (L.read_faults console.old) (L.read_faults console.new)) }
    ensures others { OtherStoresStay (store_of (command_at_once command.now)) (shelf_step S.Tells S.content S.count S.faults shelf.old shelf.new) }
    ensures shelf_stays { store_of (command_at_once command.now) ≡ None → shelf.new ≡ shelf.old }
    ensures words { result ≢ Status.BadWords }
    ensures faults { TellsFaults (result ≡ Status.Done) (result ≡ Status.ConsoleFault) (L.faults console.old) (L.faults console.new) }
{
    match command {
        AtOnce::Check(check) => answer_check(alloc, check, console),
        AtOnce::Export(asked) => answer_export(alloc, asked, console, shelf),
        AtOnce::Import(asked) => answer_import(alloc, asked, console, shelf),
        AtOnce::Audit(asked) => answer_audit(alloc, asked, console, shelf),
        AtOnce::Sample(asked) => answer_sample(alloc, asked, console),
    }
}

/// Does what a command is for that opens a clerk.
fn do_over_clerk<R: Wait + Sync + Threads, L: Link, S: Shelf, D: Doors + Send>(
    rt: &R,
    alloc: Global,
    command: &OverClerk,
    console: &mut L,
    shelf: &mut S,
    doors: &mut D,
) -> Status
    requires { HasBounds (command_over_clerk command.now) }
    ensures command { Does (shelf_step S.Tells S.content S.count S.faults shelf.old shelf.new)
        (doorway_step D.faults D.taken D.is_closed doors.old doors.new)
        (command_over_clerk command.now) (status_code result)
        (console_step L.unread L.written L.faults console.old console.new) }
    ensures others { OtherStoresStay (store_of (command_over_clerk command.now)) (shelf_step S.Tells S.content S.count S.faults shelf.old shelf.new) }
    ensures shelf_stays { store_of (command_over_clerk command.now) ≡ None → shelf.new ≡ shelf.old }
    ensures doors_stay { ((serve : Serve) → command_over_clerk command.now ≢ Command.Serve serve) → doors.new ≡ doors.old }
    ensures words { result ≢ Status.BadWords }
    ensures faults { TellsFaults (result ≡ Status.Done) (result ≡ Status.ConsoleFault) (L.faults console.old) (L.faults console.new) }
{
    match command {
        OverClerk::Session(session) => answer_session(rt, alloc, session, console, shelf),
        OverClerk::Serve(serve) => answer_serve(rt, alloc, serve, console, shelf, doors),
    }
}

/// Does what `run` does, for the words as they were read: where they weren't, that is answered.
pub fn launch<R: Wait + Sync + Threads, L: Link, S: Shelf, D: Doors + Send>(
    rt: &R,
    alloc: Global,
    words: Result<Vec<String>, WordsFault>,
    console: &mut L,
    shelf: &mut S,
    doors: &mut D,
) -> u8
    // Words that weren't read are answered, and nothing is read.
    ensures unread_words { IfErr words (λ fault. result ≡ status_code (answer_to_unread_words fault).status) }
    ensures unread_answer { IfErr words (λ fault. Answers (answer_to_unread_words fault) result
        (L.written console.old) (L.written console.new) (Rose (L.faults console.old) (L.faults console.new))) }
    ensures unread_input { IfErr words (λ fault. L.unread console.new ≡ L.unread console.old) }
    ensures unread_shelf { IfErr words (λ fault. shelf.new ≡ shelf.old) }
    ensures unread_doors { IfErr words (λ fault. doors.new ≡ doors.old) }

    // Words that were read are answered as `run` does.
    ensures bad_words { IfOk words (λ words. result ≡ status_code Status.BadWords → command_of (map string_bytes words.items) ≡ None) }
    ensures no_command { IfOk words (λ words. command_of (map string_bytes words.items) ≡ None
        → (result ≡ status_code Status.BadWords) ⊎ (result ≡ status_code Status.OutOfMemory)) }
    ensures other_words { IfOk words (λ words. command_of (map string_bytes words.items) ≡ None → (L.unread console.new ≡ L.unread console.old)
        × Answers answer_to_other_words result (L.written console.old) (L.written console.new) (Rose (L.faults console.old) (L.faults console.new))) }
    ensures command { IfOk words (λ words. (command : Command) → command_of (map string_bytes words.items) ≡ Some command
        → Does (shelf_step S.Tells S.content S.count S.faults shelf.old shelf.new)
        (doorway_step D.faults D.taken D.is_closed doors.old doors.new)
        command result
        (console_step L.unread L.written L.faults console.old console.new)) }
    ensures reading { IfOk words (λ words. (check : KindOnDay) → command_of (map string_bytes words.items) ≡ Some (Command.Check check)
        → IsReadingTold check result (L.unread console.old) (Rose (L.read_faults console.old) (L.read_faults console.new))) }
    ensures others { IfOk words (λ words. OtherStoresStay (store_in (map string_bytes words.items)) (shelf_step S.Tells S.content S.count S.faults shelf.old shelf.new)) }
    ensures shelf_stays { IfOk words (λ words. store_in (map string_bytes words.items) ≡ None → shelf.new ≡ shelf.old) }
    ensures doors_stay { IfOk words (λ words. ((serve : Serve) → command_of (map string_bytes words.items) ≢ Some (Command.Serve serve)) → doors.new ≡ doors.old) }
    ensures known { (status : Status) × (result ≡ status_code status) }
    ensures faults { TellsFaults (result ≡ status_code Status.Done) (result ≡ status_code Status.ConsoleFault) (L.faults console.old) (L.faults console.new) }
{
    match words {
        Ok(words) => run(rt, alloc, &words, console, shelf, doors),
        Err(fault) => answer_unread_words(fault, console).code(),
    }
}
