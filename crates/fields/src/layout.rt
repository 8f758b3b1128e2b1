// The case file: its fields in the order of their bits.
ghost use Rattle.std.specs.Prelude.{◌≡◌, not};
ghost use Rattle.model.specs.Layout.{stands};

use crate::amounts::Amounts;
use crate::days::Days;
use crate::equity::EquityCorrelation;
use crate::field::{Optional, Then};
use crate::flows::Flows;
use crate::map::Map;
use crate::people::People;
use crate::rates::{FourBytes, TwoBytes};
use crate::shocks::Shocks;
use crate::ufr::Ufr;

// The fields of bits 0 to 6.
pub type FirstFields = Then<
    Optional<Ufr>,
    Then<
        Optional<Days<TwoBytes>>,
        Then<Flows<120>, Then<Optional<Flows<60>>, Then<Optional<Amounts>, Then<Shocks, People>>>>,
    >,
>;

pub type Layout = Then<FirstFields, Then<Optional<Days<FourBytes>>, Optional<EquityCorrelation>>>;

fn optional<F>(there: bool, field: F) -> Optional<F>
    ensures { result ≡ record { there = there; field = field } }
{
    Optional { there, field }
}

// The fields that a map announces. Reading a file and saving a case both go over these.
pub fn layout(map: Map) -> Layout
    ensures ufr { result.0.0.there ≡ stands 0 map.bits }
    ensures short { result.0.1.0.there ≡ not (stands 7 map.bits) }
    ensures bonds { result.0.1.1.1.0.there ≡ stands 3 map.bits }
    ensures amounts { result.0.1.1.1.1.0.there ≡ stands 4 map.bits }
    ensures long { result.1.0.there ≡ stands 7 map.bits }
    ensures equity { result.1.1.there ≡ stands 8 map.bits }
{
    Then(
        Then(
            optional(map.stands(0), Ufr),
            Then(
                optional(!map.stands(7), Days(TwoBytes)),
                Then(
                    Flows::<120>,
                    Then(
                        optional(map.stands(3), Flows::<60>),
                        Then(optional(map.stands(4), Amounts), Then(Shocks, People)),
                    ),
                ),
            ),
        ),
        Then(
            optional(map.stands(7), Days(FourBytes)),
            optional(map.stands(8), EquityCorrelation),
        ),
    )
}
