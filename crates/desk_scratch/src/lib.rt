//! Answers from scratch: the texts that the desk writes on what its tables hold.
//!
//! What each text has to be stands in `specs/`: `Eval.antt` for the answer to a question, with a file an answer beside it.
#![tactic(auto)]

mod answer;
mod answer_source;
mod ask_fault;
mod assessment;
mod bill;
mod blank_text;
mod check;
pub mod examples;
mod facts;
mod finding;
mod founds;
mod holdings;
pub mod laws;
mod load;
mod material;
mod material_block;
mod part;
mod question;
mod reach33;
mod reach7;
mod rohs;
mod shared_lines;
mod sub_bill;
mod summary;
mod tonnages;
mod uses;
mod uses_found;
mod verdict_words;

pub use answer::{answer_from, answer_plain};
pub use answer_source::AnswerSource;
pub use ask_fault::AskFault;
pub use check::check_text;
pub use finding::Finding;
pub use load::Load;
pub use question::Question;
