// The points of the host's window: each bracket as two doubles that hold the same whole numbers.
ghost use Rattle.std.specs.Prelude.{◌≡◌, ◌≤◌, ◌^◌, MatchOption, true, false};
ghost use Rattle.method.specs.Window.{holds, factor_point, money_point, window_point};
ghost use Rattle.listing.specs.Holds.{Holds};

use crate::figures::named_figures;
use model::figures::{Bracket, Figures};
use model::window::{Doubles, Point};

// Up to 2^53 a double holds every whole number.
const LARGEST: u64 = 9_007_199_254_740_992;

// A bracket as two doubles that hold the same whole numbers.
pub fn doubles(b: Bracket) -> Doubles
    requires { (b.lower ≤ 2 ^ 53) × (b.upper ≤ 2 ^ 53) }
    ensures { (Holds result.lower b.lower) × (Holds result.upper b.upper) }
{
    // By `as`, since std has no `From` from 64 bits to a double.
    let lower = b.lower as f64;
    let upper = b.upper as f64;
    Doubles { lower, upper }
}

// The same of any bracket; none where a double does not hold an end.
pub fn held_doubles(b: Bracket) -> Option<Doubles>
    ensures { MatchOption result (holds b ≡ false)
        (λ d. (holds b ≡ true) × (Holds d.lower b.lower) × (Holds d.upper b.upper)) }
{
    if LARGEST < b.lower || LARGEST < b.upper {
        return None;
    }
    Some(doubles(b))
}

// Points 1 to 120 are the factors, 121 to 130 the money figures, and any other is blank. A factor is blank
// also where its own two entries are not lent; a money figure needs none.
pub fn window_point(point: u64, factors: &[u64], figures: Figures) -> Point
    ensures { result ≡ window_point point factors.now figures }
{
    match point {
        1..=120 => {
            let (brackets, _) = factors.as_chunks::<2>();
            let Some(&[lower, upper]) = brackets.get(point as usize - 1) else {
                return Point::Blank;
            };
            held_doubles(Bracket { lower, upper }).map_or(
                Point::Blank,
                |d| Point::Factor(d.lower, d.upper),
            )
        }
        121..=130 => held_doubles(named_figures(figures)[point as usize - 121].1).map_or(
            Point::Blank,
            |d| Point::Money(d.lower, d.upper),
        ),
        _ => Point::Blank,
    }
}
