//! Test vectors of the crates below: worked rows of the standard, damage at the limits and beyond them, each through
//! public calls.
//!
//! These tests stand above all crates that they are about, so that none of these is proved a second time with its
//! tests. There is nothing else here.
#![tactic(auto)]

#[cfg(test)]
mod block;
#[cfg(test)]
mod calls;
#[cfg(test)]
mod claims;
#[cfg(test)]
mod command;
#[cfg(test)]
mod field;
#[cfg(test)]
mod layout;
#[cfg(test)]
mod messages;
#[cfg(test)]
mod modules;
#[cfg(test)]
mod symbol;
#[cfg(test)]
mod texts;
#[cfg(test)]
mod words;
