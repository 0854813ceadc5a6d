//! The program's command line: which words are a command, and what they ask for.
#![tactic(auto)]

mod command;
mod command_fault;
mod grammar;
mod read;
mod readers;

pub use command::{
    Audit, CONNECTION_LIMIT, Command, Export, Import, PORT_LIMIT, SAMPLE_LIMIT, SEAT_LIMIT,
    STORE_NAME_LIMIT, Sample, Serve, Session, USUAL_SEATS,
};
pub use command_fault::CommandFault;
pub use read::read_command;
