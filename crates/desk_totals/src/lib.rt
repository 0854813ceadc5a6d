//! What a whole bill of materials comes to: what each node reaches and weighs, how many parts reach it, and the chain from one
//! node to another.
//!
//! Each total is guessed first, by going over the lines once, children first. Then all lines are gone over until that changes nothing,
//! which is at once where the guess was right. Nothing is proved of the guess: a wrong one takes time, and no total comes of it.
#![tactic(auto)]

mod acyclic;
mod amounts;
mod below;
mod bits;
mod chain;
mod counts;
mod guess;
pub mod laws;
mod link;
mod links;
mod place;
mod reach;

pub use links::Links;
