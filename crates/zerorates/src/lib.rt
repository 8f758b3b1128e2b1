// The zero rates of the terms 1 to 120, found by bisection from the discount factors.
#![tactic(auto)]

pub mod known;
mod power;
pub mod rates;
pub mod results;
pub mod search;
pub mod step;
