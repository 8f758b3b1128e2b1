// The front of a lent buffer, filled lower, upper, term by term.
ghost use Rattle.std.specs.Prelude.{◌≡◌, ◌++◌, ◌*◌, ◌≤◌, length, drop};
ghost use Rattle.working.specs.inner.Entries.{entries};

use arith::bracket::Bracket;
use zerorates::rates::RateBracket;

/// What has a lower and an upper end: brackets of factors, and of rates, which go below 0.
pub trait Pair<T> {
    ghost low: { Self → T };

    ghost high: { Self → T };

    fn lower(&self) -> T
        ensures { result ≡ low self.now };

    fn upper(&self) -> T
        ensures { result ≡ high self.now };
}

impl Pair<u64> for Bracket {
    ghost low = { λ b. b.lower };

    ghost high = { λ b. b.upper };

    fn lower(&self) -> u64 {
        self.lower
    }

    fn upper(&self) -> u64 {
        self.upper
    }
}

impl Pair<i64> for RateBracket {
    ghost low = { λ b. b.lower };

    ghost high = { λ b. b.upper };

    fn lower(&self) -> i64 {
        self.lower
    }

    fn upper(&self) -> i64 {
        self.upper
    }
}

/// Of factors and of rates. By an index: what a loop over `zip(out.chunks_exact_mut(2))` has written so far has no name for its invariant.
pub fn lend<T: Copy, B: Pair<T>>(brackets: &[B; 120], out: &mut [T; 240])
    ensures { out.new ≡ entries B.low B.high brackets.now }
{
    for (i, bracket) in brackets.iter().enumerate() {
        out[2 * i] = bracket.lower();
        out[2 * i + 1] = bracket.upper();
    }
}
