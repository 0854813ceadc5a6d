ghost use Rattle.std.specs.Prelude.{◌≡◌, ◌≢◌, map, string_bytes, false, Err, IfOk};
ghost use Rattle.std.specs.List.{list_any};
ghost use Rattle.clap.specs.Values.{kind_of};
ghost use Rattle.desk_words.specs.Commands.{HasBounds, command_answer};
ghost use Rattle.desk_words.specs.Forms.{has_one_dash, command_line_of};
ghost use Rattle.desk_words.specs.Parsed.{Parses, fault_by};
ghost use Rattle.desk_words.specs.Table.{forms};
ghost use Rattle.desk_words.specs.declared.command_fault.CommandFault.TheVariants as fault;

use crate::command::Command;
use crate::command_fault::CommandFault;
use crate::grammar::desk;
use crate::readers::read_values;
use clap::ArgMatches;
use clap::error::{Error, ErrorKind};
use std::alloc::Global;

/// The command that the program's words are, without its own name.
///
/// - `NoCommand`: they are none. That is told exactly there.
/// - `OutOfMemory`: no memory was left, for the reading or for the name of a store. It may come for any words.
pub fn read_command(alloc: Global, words: &[String]) -> Result<Command, CommandFault>
    ensures command { result ≢ Err fault.OutOfMemory → result ≡ command_answer (map string_bytes words.now) }
    ensures bounds { IfOk result HasBounds }
{
    if has_dashed_word(words) {
        return Err(CommandFault::NoCommand);
    }
    let line = read_line(alloc, words)?;
    match line.subcommand() {
        Some((name, values)) => read_values(alloc, name, values),
        None => Err(CommandFault::NoCommand),
    }
}

/// The command's name and the values that the words give, of words none of which begins with one dash.
fn read_line<'a>(alloc: Global, words: &'a [String]) -> Result<ArgMatches<'a>, CommandFault>
    ensures { list_any has_one_dash (map string_bytes words.now) ≡ false → Parses (command_line_of forms (map string_bytes words.now)) result }
{
    match desk(alloc)?.try_get_matches_from(words) {
        Ok(line) => Ok(line),
        Err(error) => Err(fault_of(&error)),
    }
}

/// What the parser's error says of the words.
fn fault_of(error: &Error) -> CommandFault
    ensures { result ≡ fault_by (kind_of error.now) }
{
    match error.kind() {
        ErrorKind::OutOfMemory => CommandFault::OutOfMemory,
        _ => CommandFault::NoCommand,
    }
}

/// Whether a word begins with one dash and no second.
fn has_dashed_word(words: &[String]) -> bool
    ensures { result ≡ list_any (λ word. has_one_dash (string_bytes word)) words.now }
{
    words.iter().any(|word| has_one_dash(word.as_bytes()))
}

/// Whether the word begins with one dash and no second.
///
/// No line of the grammar has such a word, and the parser would take some: `-` as the value of an option.
fn has_one_dash(word: &[u8]) -> bool
    ensures { result ≡ has_one_dash word.now }
{
    word.starts_with(b"-") && !word.starts_with(b"--")
}
