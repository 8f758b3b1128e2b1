// The fields of a case file, each told once: how it is read, what is checked of it, how many bytes it takes and how it is written. Their
// layout is a value made of them.
#![tactic(auto)]

pub mod amounts;
pub mod check;
pub mod cursor;
pub mod days;
pub mod equity;
pub mod field;
pub mod flows;
pub mod given_days;
pub mod layout;
pub mod map;
pub mod numbers;
pub mod people;
pub mod rates;
pub mod shocks;
pub mod sums;
pub mod ufr;
pub mod writer;
