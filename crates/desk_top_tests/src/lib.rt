//! The tests of `desk_top`, through what it gives to others: what only a caller can show, such as a call of the console or of a store
//! that fails. What the program shows from outside is tested there. They are a crate of their own, so that a check proves the library
//! once.
#![tactic(auto)]

#[cfg(test)]
mod commands_tests;
#[cfg(test)]
mod connections_tests;
#[cfg(test)]
mod faults_tests;
#[cfg(test)]
mod gateway_turns;
#[cfg(test)]
mod notes;
#[cfg(test)]
mod serve_tests;
#[cfg(test)]
mod session_steps;
#[cfg(test)]
mod store_tests;
#[cfg(test)]
mod stream_tests;
#[cfg(test)]
mod tests;
#[cfg(test)]
mod waiting_keeper;
#[cfg(test)]
mod watched_doors;
#[cfg(test)]
mod watched_line;
