//! Tests of the layers of the tree: paths, keys, messages and pending lists; copy-on-write maps and sets of disjoint ranges; nodes,
//! steps, jobs, look-ups and scans; and of whole trees, in which steps of every kind are done between messages, and each look-up is
//! compared with a reference array of numbers.
//!
//! They are in a crate of their own, since the proofs of a crate with tests are checked again with the tests.
#![tactic(auto)]

#[cfg(test)]
mod keys;
#[cfg(test)]
mod leaf_flushes;
#[cfg(test)]
mod leaves;
#[cfg(test)]
mod lists;
#[cfg(test)]
mod look_ups;
#[cfg(test)]
mod messages;
#[cfg(test)]
mod nodes;
#[cfg(test)]
mod numbers;
#[cfg(test)]
mod pair;
#[cfg(test)]
mod searches;
#[cfg(test)]
mod settling;
#[cfg(test)]
mod shared;
#[cfg(test)]
mod shared_lists;
#[cfg(test)]
mod some_steps;
#[cfg(test)]
mod span_lists;
#[cfg(test)]
mod spans;
#[cfg(test)]
mod takings;
#[cfg(test)]
mod trees;
#[cfg(test)]
mod turns;
#[cfg(test)]
mod whole;
