// What flows are worth, S1 to S6, the assets, the buffer S and the verdict, from the factors on the three curves and the rest of a case.
#![tactic(auto)]

pub mod buffer;
pub mod equity;
pub mod figures;
pub mod losses;
pub mod verdict;
pub mod worth;
