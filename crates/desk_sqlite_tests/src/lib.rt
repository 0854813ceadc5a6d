//! The tests of `desk_sqlite`, through what it gives to others: of a keeper, and of a desk over one whose disks stop. They are a crate
//! of their own, so that a check proves the library once.
#![tactic(auto)]

#[cfg(test)]
mod desk;
#[cfg(test)]
mod stores;
#[cfg(test)]
mod tests;
