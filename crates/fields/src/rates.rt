// The two forms of a rate in a file.

ghost use Rattle.std.specs.Prelude.{◌≡◌, ℕ, true, length};
ghost use Rattle.model.specs.Case.{known_form, units_per_step};
ghost use Rattle.model.specs.Layout.{daily_rate};

/// A form of rates: how many bytes a rate has, and so in which units it is. The form is a type, so that the width of a rate is known where
/// the program is compiled.
pub trait RateForm {
    ghost WIDTH: { ℕ };

    /// The bytes of a rate.
    const WIDTH: usize;

    ghost UNITS_PER_STEP: { ℕ };

    /// How many units of a rate are a rate step.
    const UNITS_PER_STEP: u64;

    /// Whether a rate is within its limits, from -1,000 to 10,000 steps.
    fn is_rate(rate: i32) -> bool
        ensures { result ≡ (daily_rate WIDTH).right rate };

    /// The rate of its bytes: big-endian, two's complement.
    fn rate_of(bytes: &[u8]) -> i32
        requires { length bytes.now ≡ WIDTH }
        ensures { result ≡ (daily_rate WIDTH).value bytes.now 0 };

    ghost known: { known_form WIDTH ≡ true };

    ghost units: { UNITS_PER_STEP ≡ units_per_step WIDTH };
}

/// Rates of two bytes, in rate steps.
#[derive(Drop)]
pub struct TwoBytes;

/// Rates of four bytes, of which 100 units are a rate step.
#[derive(Drop)]
pub struct FourBytes;

impl RateForm for TwoBytes {
    ghost use Rattle.std.specs.Prelude.{refl};

    ghost WIDTH = { 2 };

    const WIDTH: usize = 2;

    ghost UNITS_PER_STEP = { 1 };

    const UNITS_PER_STEP: u64 = 1;

    ghost known = { refl };

    ghost units = { refl };

    fn is_rate(rate: i32) -> bool {
        (-1_000..=10_000).contains(&rate)
    }

    fn rate_of(bytes: &[u8]) -> i32 {
        i32::from(i16::from_be_bytes([bytes[0], bytes[1]]))
    }
}

impl RateForm for FourBytes {
    ghost use Rattle.std.specs.Prelude.{refl};

    ghost WIDTH = { 4 };

    const WIDTH: usize = 4;

    ghost UNITS_PER_STEP = { 100 };

    const UNITS_PER_STEP: u64 = 100;

    ghost known = { refl };

    ghost units = { refl };

    fn is_rate(rate: i32) -> bool {
        (-100_000..=1_000_000).contains(&rate)
    }

    fn rate_of(bytes: &[u8]) -> i32 {
        i32::from_be_bytes([bytes[0], bytes[1], bytes[2], bytes[3]])
    }
}
