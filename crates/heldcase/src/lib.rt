// The case as the engine holds it, with its constants and its default: of the days it keeps the sums of each term, and what one rate step
// adds to a sum.
#![tactic(auto)]

pub mod flows;

ghost use Rattle.std.specs.Prelude.{◌≡◌};
ghost use Rattle.heldcase.specs.Held.{default_case};

use flows::Flows;
use model::case::{Amounts, People, Shocks};

// `sums` has P(t) of the terms 1 to 60: over the days, the sum of 1 and the rate, in the units of the rates. `per_step` is what one rate
// step adds to such a sum: the number of days, or 100 times that of rates of four bytes. N, which is 1 in these units, is 100,000 times
// `per_step`.
#[derive(Clone, Copy)]
pub struct Case {
    pub ufr: u64,
    pub per_step: u64,
    pub sums: [u64; 60],
    pub pension: Flows<120>,
    pub bonds: Flows<60>,
    pub amounts: Amounts,
    pub shocks: Shocks,
    pub people: People,
}

impl Case {
    // The UFR of a file without that field.
    pub const DEFAULT_UFR: u64 = 4_200;

    // The correlation between the equity classes of a file without that field, in thousandths.
    pub const DEFAULT_EQUITY_CORRELATION: u64 = 1_000;

    // The number of rate steps in 1: a step is 0.00001.
    pub const STEPS_PER_ONE: u64 = 100_000;

    // The number of units in a factor or a growth of 1: a unit is 10^-12.
    pub const UNIT: u64 = 1_000_000_000_000;

    // The last term whose growth is the market's own, with no weight of the UFR.
    pub const LAST_UNWEIGHED_TERM: usize = 20;

    // The last term that a file has rates of. From the next on the growth is the UFR's.
    pub const LAST_MARKET_TERM: usize = 60;

    // The last term that has a factor and a zero rate.
    pub const LAST_TERM: usize = 120;
}

impl Default for Case {
    ghost is_default = { λ c. c ≡ default_case };

    // The case with the default UFR and the default correlation between the equity classes, no flows, and 0 in every other field. Not
    // derived, since these two are not 0. The goal stays open where the definition is not unfolded.
    #[tactic(auto, unfolding(crate::specs::Held::default_case))]
    fn default() -> Case {
        Case {
            ufr: Case::DEFAULT_UFR,
            per_step: 0,
            sums: [0; 60],
            pension: Flows::default(),
            bonds: Flows::default(),
            amounts: Amounts::default(),
            shocks: Shocks {
                up_shift: 0,
                down_shift: 0,
                mature_fall: 0,
                emerging_fall: 0,
                private_fall: 0,
                property_fall: 0,
                currency_fall: 0,
                commodities_fall: 0,
                spread_rise: 0,
                correlation: 0,
                spread: 0,
                duration: 0,
                equity_correlation: Case::DEFAULT_EQUITY_CORRELATION,
            },
            people: People::default(),
        }
    }
}
