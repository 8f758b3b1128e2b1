// The curves of a case: their sums, the growths over years, and the discount factors, adjusted for pension flows and unadjusted for bonds.
#![tactic(auto)]

pub mod factors;
pub mod sums;
pub mod three;
pub mod weights;
pub mod years;
