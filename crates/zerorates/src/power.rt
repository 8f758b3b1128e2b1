// Bounds of a power of 100,000 / (100,000 + z), in units of 2^-30. Products of lower bounds, rounded down, are lower bounds; products
// of upper bounds, rounded up, are upper bounds.
ghost use Rattle.std.specs.Prelude.{◌≤◌};
ghost use Rattle.zerorates.specs.inner.Powers.{Encloses, power_most};

use super::results::FIRST_DIVISOR;
use super::step::TermStep;
use arith::bracket::Bracket;
use arith::end::Low;
use arith::scale::{Quotient, Short};
use heldcase::Case;

// 1, in units of 2^-30.
const ONE: u64 = 0x4000_0000;

// A term has at most 7 bits.
const TERM_BITS: usize = 7;

// The power of one year.
fn one_year(i: u64) -> Bracket
    requires { i ≤ 22000 }
    ensures { Encloses result 1 i (power_most 1) }
{
    let lower = Short::quotient::<Low>(ONE, Case::STEPS_PER_ONE, FIRST_DIVISOR + i);
    Bracket {
        lower,
        upper: lower + 1,
    }
}

impl TermStep {
    // The power of the term's years, by squaring along the bits of the term, the highest first.
    pub fn power_bounds(self) -> Bracket
        ensures { Encloses result self.term self.step (power_most self.term) }
    {
        let year = one_year(self.step);
        let mut power = Bracket::exactly(ONE);
        // k is a bit of the term, and no index.
        for k in (0..TERM_BITS).rev() {
            power = power.product::<Short>(power, ONE);
            if (self.term >> k) % 2 == 1 {
                power = power.product::<Short>(year, ONE);
            }
        }
        power
    }
}
