//! Codes, names, numbers and days as the desk's texts spell them, and a list of bytes.
#![tactic(auto)]

mod bytes;
mod cas;
mod code;
mod day;
mod exemption_number;
mod memory;
mod name;
mod number;
mod picture;
mod word;

pub use bytes::Bytes;
pub use cas::{Cas, CasFault};
pub use code::{CODE_LIMIT, Code, CodeFault};
pub use day::{Day, DayFault, FIRST_YEAR, LAST_YEAR};
pub use exemption_number::{EXEMPTION_NUMBER_LIMIT, ExemptionNumber};
pub use memory::OutOfMemory;
pub use name::{NAME_LIMIT, Name, NameFault};
pub use number::{NumberFault, digits_of, push_u128, read_u32, read_u64};
