// What a test is of: a step of the zero rate of a term. Step i is the rate z = i - 2,000; the steps are 0 to 22,000.
ghost use Rattle.zerorates.specs.inner.Ranges.{StepWithin};

/// A step of a term of 0 to 120 years. What is known of it is in its methods: bounds of its power over the years (`power`), both of its
/// results (`results`), and the steps that it decides (`known`).
#[derive(Clone, Copy)]
pub struct TermStep {
    pub term: usize,
    pub step: u64,
    ghost within: { StepWithin term step },
}
