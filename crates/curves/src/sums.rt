// A curve of a case, as N and the sums P(t): the base curve, or one whose mean rates are shifted.
ghost use Rattle.std.specs.Prelude.{◌≡◌};
ghost use Rattle.curves.specs.inner.Shifted.{shifted_sums};
ghost use Rattle.curves.specs.inner.Ranges.{ShiftWithin};

use heldcase::Case;

/// `n` is N; `sums` has P(0) to P(60), which are N times 1 + the mean rate, so that no mean is rounded. `ufr` is in rate steps. That the
/// factors of a curve fit is said in clauses: a ghost field would ask it of `shifted` too, which asks less.
#[derive(Clone, Copy)]
pub struct CurveSums {
    pub n: u64,
    pub sums: [u64; 61],
    pub ufr: u64,
}

/// The curve with `more` steps added to every mean rate and `less` steps taken from it. P(0) is N, since term 0 has no rate to shift.
pub fn shifted(case: &Case, more: u64, less: u64) -> CurveSums
    requires { ShiftWithin case.now more less }
    ensures { result ≡ shifted_sums more less case.now }
{
    let n = Case::STEPS_PER_ONE * case.per_step;
    let added = case.per_step * more;
    let taken = case.per_step * less;
    let mut sums = [n; 61];
    // P(t + 1) is written, by an index: what a loop over `iter_mut().zip(..)` has written so far has no name for its invariant.
    for (t, held) in case.sums.iter().enumerate() {
        sums[t + 1] = *held + added - taken;
    }
    CurveSums {
        n,
        sums,
        ufr: case.ufr,
    }
}
