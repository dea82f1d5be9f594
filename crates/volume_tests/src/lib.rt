//! Tests of what only calls inside the library can show of a volume with ample memory: how many messages a call sends and how many are
//! pending, jobs, runs of events, transactions by lists, walks through frozen trees, and how many nodes a tree has.
//!
//! They are in a crate of their own, since the proofs of a crate with tests are checked again with the tests.
#![tactic(auto)]

#[cfg(test)]
mod changed;
#[cfg(test)]
mod compiled;
#[cfg(test)]
mod event_runs;
#[cfg(test)]
mod full_trees;
#[cfg(test)]
mod job_rows;
#[cfg(test)]
mod joined;
#[cfg(test)]
mod look_alike;
#[cfg(test)]
mod removals;
#[cfg(test)]
mod requests;
#[cfg(test)]
mod runs;
#[cfg(test)]
mod some_events;
#[cfg(test)]
mod transacted;
#[cfg(test)]
mod walked;
