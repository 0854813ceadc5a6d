//! The tests of `desk_http` and `desk_front` that only a caller can run: what a call of the link that fails leaves, and the replies that no
//! stream can ask for. All else stands in `tests/cases/http`. The files of a crate begin with its name.
#![tactic(auto)]

#[cfg(test)]
mod front;
#[cfg(test)]
mod http_messages;
