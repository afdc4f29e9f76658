//! The tests that only code can say: what the outside of the server does in forms of
//! memory where calls fail, and in the real ones with a host. It has nothing but tests. Each
//! tells what happened in one text, and compares that with one worked out by hand: a test is
//! proved like any function, and this keeps it short.
//!
//! Rooms: `told` (how they tell), `tellers` (that each form in memory tells what it holds),
//! `streams`, `texts` (files), `rows` (keepers in memory), `kept_in_sqlite`,
//! `keepers` (lists of changes to it and to one in memory), `doors` and `hosts` (the
//! clock and the standard streams), `odd_host` (a host as a real one is not to be).
#![tactic(auto)]

#[cfg(test)]
mod doors;
#[cfg(test)]
mod hosts;
#[cfg(test)]
mod keepers;
#[cfg(test)]
mod kept_in_sqlite;
#[cfg(test)]
mod odd_host;
#[cfg(test)]
mod rows;
#[cfg(test)]
mod streams;
#[cfg(test)]
mod tellers;
#[cfg(test)]
mod texts;
#[cfg(test)]
mod told;
