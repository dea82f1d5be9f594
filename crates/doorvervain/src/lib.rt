//! The file system as a C library. A handle is a pointer to a volume that C holds, and each call takes it together with
//! numbers, texts and buffers.
//!
//! The exports are thin wrappers of `ffi_calls`: each says what happens to the volume of the handle. `include/doorvervain.h`
//! declares what C programs call, and documents each function.
#![tactic(auto)]

mod changes;
mod differences;
mod edit_exports;
mod forks;
mod handle;
mod holes;
mod log;
mod looks;
mod numbers;
mod parts;
mod pieces;
mod place;
mod records;
mod salted_log;
mod upkeep;
