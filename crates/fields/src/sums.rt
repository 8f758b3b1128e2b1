// Of each term the sum of its rates over some days.
ghost use Rattle.std.specs.Prelude.{◌≡◌, ◌*◌, ◌≤◌, [], ◌∷◌, pos, neg_ℤ, ◌*ℤ◌, ◌+ℤ◌};
ghost use Rattle.refusal.specs.declared.Refusal.TheVariants.{Forward};
ghost use Rattle.model.specs.Numbers.{every};
ghost use Rattle.model.specs.Limits.{Between};
ghost use Rattle.method.specs.Curve.{natural};
ghost use Rattle.fields.specs.Checks.{Checked};
ghost use Rattle.fields.specs.Sums.{Bounded, raised, difference_right, forward_right};

use crate::check::check;
use refusal::Refusal;

// What a rate step adds to a sum, too. They are sums of at most 70 days, as many as a file, a list and a window hold: 7,000 units a step.
#[derive(Clone, Copy)]
pub struct DaySums {
    pub per_step: u64,
    pub sums: [i64; 60],
    ghost few: { per_step ≤ 7000 },
    ghost bounded: { Bounded (10000 * per_step) sums },
}

// The same of at most 255 days, as many as a count byte can say: 25,500 units a step.
#[derive(Clone, Copy)]
pub struct WideDaySums {
    pub per_step: u64,
    pub sums: [i64; 60],
    ghost few: { per_step ≤ 25500 },
    ghost bounded: { Bounded (10000 * per_step) sums },
}

// The days of a file: their sums, the file's bytes that hold the rates, and where these are.
#[derive(Clone, Copy)]
pub struct FileDays<'a> {
    pub summed: DaySums,
    pub rates: &'a [u8],
    // A host is told where its rates are, and C has no slice of a slice: so an offset goes beside the bytes.
    pub rates_at: usize,
}

// t × s(t). The range of a sum is told in clauses here and in the two functions below: each has another one, of a number that goes into the
// next step.
fn weighted(t: usize, sum: i64) -> i64
    requires term { t ≤ 60 }
    requires small { Between (neg_ℤ (pos 1100000000000)) (pos 1100000000000) sum }
    ensures value { result ≡ pos t *ℤ sum }
    ensures small { Between (neg_ℤ (pos 66000000000000)) (pos 66000000000000) result }
{
    t as i64 * sum
}

// The limits of 6, from (t - 1) × s(t-1) to t × s(t).
fn difference_within(per_step: u64, last: i64, next: i64) -> bool
    requires step { per_step ≤ 25500 }
    requires last { Between (neg_ℤ (pos 66000000000000)) (pos 66000000000000) last }
    requires next { Between (neg_ℤ (pos 66000000000000)) (pos 66000000000000) next }
    ensures { result ≡ difference_right per_step last next }
{
    let step = per_step as i64;
    let forward = next - last;
    // By two tests: of `contains` over a range of products no proof was found.
    -2_000 * step <= forward && forward <= 12_000 * step
}

// Whether each t × s(t) - (t - 1) × s(t-1) is within the limits of 6, where a step adds `per_step` to a sum. What is asked of
// these leaves room for 255 days, as many as a count byte can say, whether or not their rates are within their limits.
pub fn forwards_within(per_step: u64, sums: &[i64; 60]) -> bool
    requires step { per_step ≤ 25500 }
    requires small { Bounded 1100000000000 sums.now }
    ensures { result ≡ every (forward_right per_step sums.now) 60 }
{
    let mut last = 0;
    // t is a number of the rule: the sum of term t + 1 weighs t + 1.
    for (t, sum) in sums.iter().enumerate() {
        let next = weighted(t + 1, *sum);
        if !difference_within(per_step, last, next) {
            return false;
        }
        last = next;
    }
    true
}

// P(t).
fn raised_sum(per_step: u64, sum: i64) -> u64
    requires step { per_step ≤ 25500 }
    requires small { Between (neg_ℤ (pos (10000 * per_step))) (pos (10000 * per_step)) sum }
    ensures { result ≡ natural (pos (100000 * per_step) +ℤ sum) }
{
    (100_000 * per_step as i64 + sum) as u64
}

// P(t) of the terms 1 to 60.
fn raised_sums(per_step: u64, held: &[i64; 60]) -> [u64; 60]
    requires step { per_step ≤ 25500 }
    requires small { Bounded (10000 * per_step) held.now }
    ensures { result ≡ raised per_step held.now }
{
    let mut raised = [0; 60];
    // By an index: of `map` the check does not find alone that its closure may be called at each sum, nor what the calls give.
    for (t, sum) in held.iter().enumerate() {
        raised[t] = raised_sum(per_step, *sum);
    }
    raised
}

impl DaySums {
    // 6: some t × s(t) - (t - 1) × s(t-1) may be out of its limits.
    pub fn forwards_within(&self) -> Result<(), Refusal>
        ensures { Checked ((every (forward_right self.now.per_step self.now.sums) 60, Forward) ∷ []) (λ _. Unit {0}) result }
    {
        check(forwards_within(self.per_step, &self.sums), Refusal::Forward)
    }

    // P(t) of the terms 1 to 60.
    pub fn raised(&self) -> [u64; 60]
        ensures { result ≡ raised self.now.per_step self.now.sums }
    {
        raised_sums(self.per_step, &self.sums)
    }
}

impl WideDaySums {
    // 6, as of fewer days.
    pub fn forwards_within(&self) -> Result<(), Refusal>
        ensures { Checked ((every (forward_right self.now.per_step self.now.sums) 60, Forward) ∷ []) (λ _. Unit {0}) result }
    {
        let within = forwards_within(self.per_step, &self.sums);
        check(within, Refusal::Forward)
    }

    // P(t) of the terms 1 to 60.
    pub fn raised(&self) -> [u64; 60]
        ensures { result ≡ raised self.now.per_step self.now.sums }
    {
        raised_sums(self.per_step, &self.sums)
    }
}
