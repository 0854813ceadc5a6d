//! The tests of the crates that know nothing of the ten tables: `desk_text`, `desk_law`, `desk_rows`,
//! `desk_edge`, `desk_graph`, `desk_rollup` and `desk_tonnage`, each through what it gives to others.
//! The files of a crate begin with its name.
#![tactic(auto)]

#[cfg(test)]
mod edge;
#[cfg(test)]
mod edge_doors;
#[cfg(test)]
mod edge_store;
#[cfg(test)]
mod graph;
#[cfg(test)]
mod law;
#[cfg(test)]
mod rollup;
#[cfg(test)]
mod rows;
#[cfg(test)]
mod text;
#[cfg(test)]
mod tonnage;
