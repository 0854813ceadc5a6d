ghost use Rattle.std.specs.Prelude.{◌≡◌};
ghost use Rattle.desk_top.specs.Sorted.{command_of_sorted};

use desk_law::KindOnDay;
use desk_words::{Audit, Command, Export, Import, Sample, Serve, Session};

/// A command that waits for nobody: it opens no clerk.
#[derive(Drop)]
pub(crate) enum AtOnce {
    /// Judge a declaration.
    Check(KindOnDay),
    /// Write what a store keeps.
    Export(Export),
    /// Fill an empty store.
    Import(Import),
    /// Judge a store's desk.
    Audit(Audit),
    /// Summarise a sample desk.
    Sample(Sample),
}

/// A command that opens a clerk over a desk, which may wait.
#[derive(Drop)]
pub(crate) enum OverClerk {
    /// Serve a stream of requests.
    Session(Session),
    /// Serve connections.
    Serve(Serve),
}

/// A command by whether it may wait.
#[derive(Drop)]
pub(crate) enum Sorted {
    /// It waits for nobody.
    AtOnce(AtOnce),
    /// It may wait.
    OverClerk(OverClerk),
}

/// The command, by whether it may wait.
pub(crate) fn sorted_command(command: Command) -> Sorted
    ensures { command_of_sorted result ≡ command }
{
    match command {
        Command::Check(check) => Sorted::AtOnce(AtOnce::Check(check)),
        Command::Session(session) => Sorted::OverClerk(OverClerk::Session(session)),
        Command::Serve(serve) => Sorted::OverClerk(OverClerk::Serve(serve)),
        Command::Export(export) => Sorted::AtOnce(AtOnce::Export(export)),
        Command::Import(import) => Sorted::AtOnce(AtOnce::Import(import)),
        Command::Audit(audit) => Sorted::AtOnce(AtOnce::Audit(audit)),
        Command::Sample(sample) => Sorted::AtOnce(AtOnce::Sample(sample)),
    }
}
