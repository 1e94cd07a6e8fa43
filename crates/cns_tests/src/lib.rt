//! Tests of the crates up to the desk, in one crate of their own: they use public names alone, so that no crate below is
//! proved once more for its tests, and what a test program links is gone through once.
//!
//! `book` has the book and the crates below it, `growth` their calls with each growth refused in turn, `desk` the workers; `records`,
//! `values` and `checks` are for all three.
#![tactic(auto)]

#[cfg(test)]
mod book;
#[cfg(test)]
mod checks;
#[cfg(test)]
mod desk;
#[cfg(test)]
mod growth;
#[cfg(test)]
mod meeting;
#[cfg(test)]
mod records;
#[cfg(test)]
mod values;
