//! What the program does for its words: the exit status, and which bytes are written for which bytes read.
#![tactic(auto)]

mod audit;
mod check;
mod export;
mod import;
mod kept_bodies;
mod limited_doors;
mod opened_store;
mod program;
mod program_words;
mod refusal;
mod sample;
mod serve;
mod serving;
mod session;
mod sorted;
mod status;
mod store;
mod summary;
mod sure_keeper;
mod tell;

pub use program::{launch, run};
pub use program_words::{WordsFault, words};
pub use status::Status;
