// What is promised of the engine: the crate to open first. A function is a promise: its name is the sentence in short, the text above it is
// the sentence in plain words, and its contract is that sentence with its premises, of every file, case, window, list of changes or history.
// It takes nothing and does nothing: that it is proved is all. The record that a contract names is in the definitions of what it is about,
// in `specs/` of their crate, most in Promises.antt. A call that a host makes has its part of these promises in its own contract.
#![tactic(auto)]

pub mod bonds;
pub mod four_bytes;
pub mod hosts;
pub mod months;
pub mod refusals;
pub mod rolling;
pub mod saving;
pub mod search;
pub mod sizes;
pub mod valuation;
pub mod window;
