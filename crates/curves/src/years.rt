// A growth over years: 1, once × p ÷ q a year, at both ends.
ghost use Rattle.std.specs.Prelude.{◌≡◌};
ghost use Rattle.arith.specs.Brackets.{bracket, end_of};
ghost use Rattle.method.specs.Rounded.{scaled};
ghost use Rattle.curves.specs.inner.Years.{scaled_from};
ghost use Rattle.curves.specs.inner.Ranges.{ScaledWithin, YearsWithin};

use arith::bracket::Bracket;
use arith::ratio::Ratio;
use heldcase::Case;

// A call takes one year and leaves j - 1 to the next. The growth and the ratio are lent, and the call comes last, since only then does the
// compiler make a loop of it. It falls on j as its definition does, a form that the project has fixed.
fn take_years(growth: &mut Bracket, year: &Ratio, j: usize)
    requires { YearsWithin year.now.dividend year.now.divisor growth.old j }
    ensures { growth.new ≡ bracket (λ e. scaled_from e year.now.dividend year.now.divisor (end_of growth.old e) j) }
{
    if j == 0 {
        return;
    }
    *growth = (*growth).scaled_by(year);
    take_years(growth, year, j - 1);
}

/// A growth over j years, p ÷ q in each: one division for all of them, and two products in each year and at each end. The three numbers
/// stand apart, as the definition of a growth has them.
pub fn over_years(p: u64, q: u64, j: usize) -> Bracket
    requires { ScaledWithin p q j }
    ensures { result ≡ bracket (λ e. scaled e p q j) }
{
    let mut growth = Bracket::exactly(Case::UNIT);
    let year = Ratio::of(p, q);
    take_years(&mut growth, &year, j);
    growth
}
