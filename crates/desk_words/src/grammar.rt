//! The table of commands, as `clap` is told it.
ghost use Rattle.std.specs.Prelude.{◌≡◌, IfOk, false};
ghost use Rattle.clap.specs.Simple.{app_of};
ghost use Rattle.clap.specs.Walk.{rule_of};
ghost use Rattle.clap.specs.declared.builder.command.Command.TheViews.{out-Command as fields_of};
ghost use Rattle.desk_words.specs.App.{bare_app, desk_app, form_app, option_rule, positional_rule};
ghost use Rattle.desk_words.specs.Table.{audit_form, check_form, export_form, import_form, sample_form, serve_form, session_form};

use clap::{Arg, ArgAction, Command};
use std::alloc::{AllocError, Global};

/// The program with all its commands.
pub(crate) fn desk<'a>(alloc: Global) -> Result<Command<'a>, AllocError>
    ensures { IfOk result (λ desk. app_of desk ≡ desk_app) }
{
    bare_desk(alloc)
        .subcommand(check(alloc)?)?
        .subcommand(session(alloc)?)?
        .subcommand(serve(alloc)?)?
        .subcommand(export(alloc)?)?
        .subcommand(import(alloc)?)?
        .subcommand(audit(alloc)?)?
        .subcommand(sample(alloc)?)
}

/// The program without its commands. It answers no request for help, and its own name isn't among its words.
fn bare_desk<'a>(alloc: Global) -> Command<'a>
    ensures { app_of result ≡ bare_app }
{
    Command::new(alloc, "desk")
        .no_binary_name(true)
        .disable_help_flag(true)
        .disable_help_subcommand(true)
        .subcommand_required(true)
}

/// `check DAY KIND`.
fn check<'a>(alloc: Global) -> Result<Command<'a>, AllocError>
    ensures app { IfOk result (λ check. app_of check ≡ form_app check_form) }
    ensures local { IfOk result (λ check. (fields_of check).has_globals ≡ false) }
{
    Command::new(alloc, "check")
        .arg(positional(alloc, "DAY", 1))?
        .arg(positional(alloc, "KIND", 2))
}

/// `session [--store NAME]`.
fn session<'a>(alloc: Global) -> Result<Command<'a>, AllocError>
    ensures app { IfOk result (λ session. app_of session ≡ form_app session_form) }
    ensures local { IfOk result (λ session. (fields_of session).has_globals ≡ false) }
{
    Command::new(alloc, "session").arg(option(alloc, "store", false))
}

/// `serve --port N [--seats N] [--connections N] [--store NAME]`.
fn serve<'a>(alloc: Global) -> Result<Command<'a>, AllocError>
    ensures app { IfOk result (λ serve. app_of serve ≡ form_app serve_form) }
    ensures local { IfOk result (λ serve. (fields_of serve).has_globals ≡ false) }
{
    Command::new(alloc, "serve")
        .arg(option(alloc, "port", true))?
        .arg(option(alloc, "seats", false))?
        .arg(option(alloc, "connections", false))?
        .arg(option(alloc, "store", false))
}

/// `export --store NAME`.
fn export<'a>(alloc: Global) -> Result<Command<'a>, AllocError>
    ensures app { IfOk result (λ export. app_of export ≡ form_app export_form) }
    ensures local { IfOk result (λ export. (fields_of export).has_globals ≡ false) }
{
    Command::new(alloc, "export").arg(option(alloc, "store", true))
}

/// `import --store NAME`.
fn import<'a>(alloc: Global) -> Result<Command<'a>, AllocError>
    ensures app { IfOk result (λ import. app_of import ≡ form_app import_form) }
    ensures local { IfOk result (λ import. (fields_of import).has_globals ≡ false) }
{
    Command::new(alloc, "import").arg(option(alloc, "store", true))
}

/// `audit DAY --store NAME`.
fn audit<'a>(alloc: Global) -> Result<Command<'a>, AllocError>
    ensures app { IfOk result (λ audit. app_of audit ≡ form_app audit_form) }
    ensures local { IfOk result (λ audit. (fields_of audit).has_globals ≡ false) }
{
    Command::new(alloc, "audit")
        .arg(positional(alloc, "DAY", 1))?
        .arg(option(alloc, "store", true))
}

/// `sample N`.
fn sample<'a>(alloc: Global) -> Result<Command<'a>, AllocError>
    ensures app { IfOk result (λ sample. app_of sample ≡ form_app sample_form) }
    ensures local { IfOk result (λ sample. (fields_of sample).has_globals ≡ false) }
{
    Command::new(alloc, "sample").arg(positional(alloc, "N", 1))
}

/// The positional of this name at this place, counted from 1. It has to be there.
fn positional<'a>(alloc: Global, name: &'a str, place: usize) -> Arg<'a>
    ensures rule { rule_of result ≡ positional_rule name.now place }
    ensures local { result.global ≡ false }
{
    Arg::new(alloc, name)
        .index(place)
        .required(true)
        .action(ArgAction::Set)
}

/// The option that is written `--` and this name, with one value.
fn option<'a>(alloc: Global, name: &'a str, required: bool) -> Arg<'a>
    ensures rule { rule_of result ≡ option_rule name.now required }
    ensures local { result.global ≡ false }
{
    Arg::new(alloc, name)
        .long(name)
        .required(required)
        .action(ArgAction::Set)
}
