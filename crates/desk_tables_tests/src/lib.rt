//! The tests of the tables, and of what answers from them, keeps them and fills them, that only a caller can run: calls that fail, and what
//! no command writes. All else stands in `tests/cases`. The files of a crate begin with its name; what they share stands in `helpers`.
#![tactic(auto)]

#[cfg(test)]
mod answers;
#[cfg(test)]
mod clerk;
#[cfg(test)]
mod engine;
#[cfg(test)]
mod helpers;
#[cfg(test)]
mod records;
#[cfg(test)]
mod report_export;
#[cfg(test)]
mod report_import;
#[cfg(test)]
mod report_outside;
#[cfg(test)]
mod sample;
#[cfg(test)]
mod tables_edits;
#[cfg(test)]
mod tables_gather;
