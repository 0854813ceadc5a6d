//! A desk of any size to try: the list of edits that makes it.
#![tactic(auto)]

mod assembly;
mod codes;
mod declared;
mod pushes;
mod sampling;

pub use sampling::sample;
