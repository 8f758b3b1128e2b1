// Exact arithmetic on whole numbers, rounded at an end of a bracket: quotients of products, numbers times a ratio, and roots of fractions,
// with the numbers of 192 bits that a root is found by.
#![tactic(auto)]

pub mod bracket;
pub mod digits;
pub mod end;
pub mod halving;
pub mod ratio;
pub mod scale;
