// Why a case, a window or a history is refused, and the sentence that says so, the one of hosts/words.toml. A refusal's number is what
// hosts in other languages are given, and what a listing shows.
#![tactic(auto)]

ghost use Rattle.std.specs.Prelude.{◌≡◌};
ghost use Rattle.refusal.specs.Numbered.{number_of};

use thiserror::Error;

#[derive(Clone, Copy, Debug, PartialEq, Eq, Error)]
pub enum Refusal {
    #[error("the file is too short; its map, and each field that the map announces, must be whole")]
    EndsEarly = 1,
    #[error("bytes follow the last field; the file must end there")]
    BytesFollow = 2,
    #[error("the map has a wrong bit; bits 2, 5 and 6 and exactly one of bits 1 and 7 must be set, and bits 9 to 15 must not; a case that is handed in must have rates of 2 or 4 bytes")]
    WrongFields = 3,
    #[error("the number of days is out of limits; it must be 1 to 70, with 60 rates each")]
    DayCount = 4,
    #[error("a zero rate is out of limits; each must be -1,000 to 10,000 steps of 0.00001, or in four bytes, which a rolling window has not, -100,000 to 1,000,000 steps of 0.0000001, which is -1 % to 10 %")]
    Rate = 5,
    #[error("a one-year forward rate is out of limits; t x s(t) - (t - 1) x s(t-1), with s(t) the sum of term t's rates over the n days, must be -2,000 x n to 12,000 x n steps of 0.00001 at each term, or in four bytes -200,000 x n to 1,200,000 x n steps of 0.0000001, which is -2 % to 12 %")]
    Forward = 6,
    #[error("the number of flows is out of limits; there must be 1 to 120 pension flows, and 1 to 60 bond flows where their bit is set")]
    FlowCount = 7,
    #[error("a flow is out of limits; each must be at most 100,000,000 euros")]
    Flow = 8,
    #[error("the UFR is out of limits; it must be at most 5,000 steps of 0.00001, 5 %")]
    Ufr = 9,
    #[error("an amount is out of limits; each must be at most 100,000,000,000 euros")]
    Amount = 10,
    #[error("a shock is out of limits; shifts must be at most 1,000 steps, falls, spread rise and correlations at most 1,000 thousandths, the credit spread at most 10,000 steps and the credit duration at most 500 tenths of a year")]
    Shock = 11,
    #[error("the head count or an age is out of limits; heads must be 1 to 1,000,000, and ages at most 1,200 months")]
    People = 12,
    #[error("a lent buffer is too short; the buffers for factors and for rates must have at least 240 entries")]
    Buffers = 13,
    #[error("the lent buffer is too short for the case; it must have at least as many bytes as the case's shortest file")]
    Room = 14,
    #[error("the rolling window is full; it must hold at most 69 days for one to be added")]
    WindowFull = 15,
    #[error("the rolling window is empty; it must hold a day for the oldest to be dropped")]
    WindowEmpty = 16,
    #[error("the history of months or its start index is out of limits; the history must have 240 bytes, 120 months of two, and the start index must be at most 119")]
    History = 17,
    #[error("a month of the history is out of limits; each must be -1,000 to 10,000 steps of 0.00001, -1 % to 10 %")]
    Month = 18,
    #[error("the UFR that the history gives is out of limits; the mean of its 120 months, rounded to the nearest 100 steps, must be 0 to 5,000 steps of 0.00001, 0 % to 5 %")]
    MonthsUfr = 19,
    // a window is not one that a window's own changes leave
    #[error("the rolling window is damaged; its count must be at most 70, its start at most 69, each rate of a day held -1,000 to 10,000 steps, and each sum that of the days held")]
    Damaged = 27,
}

impl Refusal {
    /// 1 to 19, or 27. Offices and hosts know a refusal by this number, so it has a name of its own beside the discriminant.
    pub fn number(self) -> u8
        ensures { result ≡ number_of self }
    {
        self as u8
    }
}
