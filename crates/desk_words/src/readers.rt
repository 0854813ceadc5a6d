//! What the values of a command's positionals and options ask for.
ghost use Rattle.std.specs.Prelude.{◌≡◌, ◌≢◌, ◌≤◌, codes, true, Err, IfOk, IfSome};
ghost use Rattle.std.specs.Option.{ok_or};
ghost use Rattle.clap.specs.Matches.{first_value, found_of};
ghost use Rattle.desk_text.specs.Day.{is_askable};
ghost use Rattle.desk_words.specs.Commands.{HasBounds, HasServeBounds, IsUpTo, audit_of, check_of, command_named, connection_limit, export_of};
ghost use Rattle.desk_words.specs.Commands.{import_of, is_store_name, number_up_to, optional_by, port_limit, read_by, sample_limit, sample_of};
ghost use Rattle.desk_words.specs.Commands.{serve_of, session_of, store_name_of};
ghost use Rattle.desk_text.specs.Forms.{an_askable_day};
ghost use Rattle.desk_words.specs.declared.command_fault.CommandFault.TheVariants as fault;

use crate::command::{
    Audit, CONNECTION_LIMIT, Command, Export, Import, PORT_LIMIT, SAMPLE_LIMIT, SEAT_LIMIT,
    STORE_NAME_LIMIT, Sample, Serve, Session, USUAL_SEATS,
};
use crate::command_fault::CommandFault;
use clap::ArgMatches;
use desk_law::{Kind, KindOnDay};
use desk_text::{Bytes, Day, read_u32};
use std::alloc::Global;

/// The command of this name, by the values that it was given.
pub(crate) fn read_values(
    alloc: Global,
    name: &str,
    values: &ArgMatches<'_>,
) -> Result<Command, CommandFault>
    ensures value { result ≢ Err fault.OutOfMemory
        → result ≡ ok_or (command_named name.now (first_value (found_of values.now))) fault.NoCommand }
    ensures bounds { IfOk result HasBounds }
{
    if name == "check" {
        return Ok(Command::Check(read_check(values)?));
    }
    if name == "session" {
        return Ok(Command::Session(read_session(alloc, values)?));
    }
    if name == "serve" {
        return Ok(Command::Serve(read_serve(alloc, values)?));
    }
    if name == "export" {
        return Ok(Command::Export(read_export(alloc, values)?));
    }
    if name == "import" {
        return Ok(Command::Import(read_import(alloc, values)?));
    }
    if name == "audit" {
        return Ok(Command::Audit(read_audit(alloc, values)?));
    }
    if name == "sample" {
        return Ok(Command::Sample(read_sample(values)?));
    }
    Err(CommandFault::NoCommand)
}

fn read_check(values: &ArgMatches<'_>) -> Result<KindOnDay, CommandFault>
    ensures value { result ≡ ok_or (check_of (first_value (found_of values.now))) fault.NoCommand }
    ensures bounds { IfOk result (λ check. is_askable check.day ≡ true) }
{
    let day = read_day(values)?;
    let Some(kind) = values.get_str("KIND") else {
        return Err(CommandFault::NoCommand);
    };
    match Kind::read(kind.as_bytes()) {
        Some(kind) => Ok(KindOnDay { kind, day }),
        None => Err(CommandFault::NoCommand),
    }
}

fn read_session(alloc: Global, values: &ArgMatches<'_>) -> Result<Session, CommandFault>
    ensures value { result ≢ Err fault.OutOfMemory
        → result ≡ ok_or (session_of (first_value (found_of values.now))) fault.NoCommand }
    ensures bounds { IfOk result (λ session. IfSome session.store (λ name. is_store_name name ≡ true)) }
{
    let store = read_optional_store(alloc, values)?;
    Ok(Session { store })
}

#[tactic(auto, unfolding(crate::specs::Commands::serve_of))]
fn read_serve(alloc: Global, values: &ArgMatches<'_>) -> Result<Serve, CommandFault>
    ensures value { result ≢ Err fault.OutOfMemory
        → result ≡ ok_or (serve_of (first_value (found_of values.now))) fault.NoCommand }
    ensures bounds { IfOk result HasServeBounds }
{
    let port = read_port(values)?;
    let seats = read_number(values, "seats", SEAT_LIMIT)?;
    let connections = read_number(values, "connections", CONNECTION_LIMIT)?;
    let store = read_optional_store(alloc, values)?;
    Ok(Serve {
        port,
        seats: seats.unwrap_or(USUAL_SEATS),
        connections,
        store,
    })
}

fn read_export(alloc: Global, values: &ArgMatches<'_>) -> Result<Export, CommandFault>
    ensures value { result ≢ Err fault.OutOfMemory
        → result ≡ ok_or (export_of (first_value (found_of values.now))) fault.NoCommand }
    ensures bounds { IfOk result (λ export. is_store_name export.store ≡ true) }
{
    let store = read_store(alloc, values)?;
    Ok(Export { store })
}

fn read_import(alloc: Global, values: &ArgMatches<'_>) -> Result<Import, CommandFault>
    ensures value { result ≢ Err fault.OutOfMemory
        → result ≡ ok_or (import_of (first_value (found_of values.now))) fault.NoCommand }
    ensures bounds { IfOk result (λ import. is_store_name import.store ≡ true) }
{
    let store = read_store(alloc, values)?;
    Ok(Import { store })
}

fn read_audit(alloc: Global, values: &ArgMatches<'_>) -> Result<Audit, CommandFault>
    ensures value { result ≢ Err fault.OutOfMemory
        → result ≡ ok_or (audit_of (first_value (found_of values.now))) fault.NoCommand }
    ensures bounds { IfOk result (λ audit. (is_askable audit.day ≡ true) × (is_store_name audit.store ≡ true)) }
{
    let day = read_day(values)?;
    let store = read_store(alloc, values)?;
    Ok(Audit { day, store })
}

fn read_sample(values: &ArgMatches<'_>) -> Result<Sample, CommandFault>
    ensures value { result ≡ ok_or (sample_of (first_value (found_of values.now))) fault.NoCommand }
    ensures bounds { IfOk result (λ sample. (1 ≤ sample.size) × (sample.size ≤ sample_limit)) }
{
    let Some(size) = values.get_str("N") else {
        return Err(CommandFault::NoCommand);
    };
    match number_up_to(size, SAMPLE_LIMIT) {
        Some(size) => Ok(Sample { size }),
        None => Err(CommandFault::NoCommand),
    }
}

/// The port that was given.
fn read_port(values: &ArgMatches<'_>) -> Result<u16, CommandFault>
    ensures value { result
        ≡ ok_or (read_by (number_up_to port_limit) (first_value (found_of values.now) (codes "port"))) fault.NoCommand }
    ensures bounds { IfOk result (IsUpTo port_limit) }
{
    let Some(port) = values.get_str("port") else {
        return Err(CommandFault::NoCommand);
    };
    match number_up_to(port, PORT_LIMIT) {
        Some(port) => Ok(port as u16),
        None => Err(CommandFault::NoCommand),
    }
}

/// The number of this name, from 1 up to the limit, where it was given.
fn read_number(values: &ArgMatches<'_>, name: &str, limit: u32) -> Result<Option<u32>, CommandFault>
    ensures value { result
        ≡ ok_or (optional_by (number_up_to limit) (first_value (found_of values.now) name.now)) fault.NoCommand }
    ensures bounds { IfOk result (λ given. IfSome given (IsUpTo limit)) }
{
    let Some(number) = values.get_str(name) else {
        return Ok(None);
    };
    match number_up_to(number, limit) {
        Some(number) => Ok(Some(number)),
        None => Err(CommandFault::NoCommand),
    }
}

/// The number from 1 up to the limit that the word is.
fn number_up_to(word: &str, limit: u32) -> Option<u32>
    ensures value { result ≡ number_up_to limit word.now }
    ensures bounds { IfSome result (IsUpTo limit) }
{
    match read_u32(word.as_bytes()) {
        Ok(n) if 1 <= n && n <= limit => Some(n),
        _ => None,
    }
}

/// The day that was given, where it may be asked about.
fn read_day(values: &ArgMatches<'_>) -> Result<Day, CommandFault>
    ensures value { result
        ≡ ok_or (read_by an_askable_day (first_value (found_of values.now) (codes "DAY"))) fault.NoCommand }
    ensures askable { IfOk result (λ day. is_askable day ≡ true) }
{
    let Some(day) = values.get_str("DAY") else {
        return Err(CommandFault::NoCommand);
    };
    match Day::read_askable(day.as_bytes()) {
        Some(day) => Ok(day),
        None => Err(CommandFault::NoCommand),
    }
}

/// The name of the store that was given.
fn read_store(alloc: Global, values: &ArgMatches<'_>) -> Result<Bytes, CommandFault>
    ensures value { result ≢ Err fault.OutOfMemory
        → result ≡ ok_or (read_by store_name_of (first_value (found_of values.now) (codes "store"))) fault.NoCommand }
    ensures bounds { IfOk result (λ name. is_store_name name ≡ true) }
{
    match values.get_str("store") {
        Some(name) => store_name(alloc, name),
        None => Err(CommandFault::NoCommand),
    }
}

/// The name of the store, where one was given.
fn read_optional_store(
    alloc: Global,
    values: &ArgMatches<'_>,
) -> Result<Option<Bytes>, CommandFault>
    ensures value { result ≢ Err fault.OutOfMemory
        → result ≡ ok_or (optional_by store_name_of (first_value (found_of values.now) (codes "store"))) fault.NoCommand }
    ensures bounds { IfOk result (λ given. IfSome given (λ name. is_store_name name ≡ true)) }
{
    match values.get_str("store") {
        Some(name) => Ok(Some(store_name(alloc, name)?)),
        None => Ok(None),
    }
}

/// The name of a store, where a store may have it.
fn store_name(alloc: Global, name: &str) -> Result<Bytes, CommandFault>
    ensures value { result ≢ Err fault.OutOfMemory → result ≡ ok_or (store_name_of name.now) fault.NoCommand }
    ensures bounds { IfOk result (λ name. is_store_name name ≡ true) }
{
    let name = name.as_bytes();
    if !is_store_name(name) {
        return Err(CommandFault::NoCommand);
    }
    let mut store = Bytes::start(alloc);
    store.push_all(name)?;
    Ok(store)
}

/// Whether a store may have this name.
fn is_store_name(name: &[u8]) -> bool
    ensures { result ≡ is_store_name name.now }
{
    !name.is_empty() && name.len() <= STORE_NAME_LIMIT
}
