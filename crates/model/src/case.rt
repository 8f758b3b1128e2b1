// The fields of a case that are no lists.

// Amounts in euros. Hosts hand in amounts, shocks and people as C lays structs out.
#[repr(C)]
#[derive(Clone, Copy, Default)]
pub struct Amounts {
    pub mature: u64,
    pub emerging: u64,
    pub private: u64,
    pub property: u64,
    pub commodities: u64,
    pub credit: u64,
    pub cash: u64,
    pub currency: u64,
}

// Shifts and spread in rate steps, falls, spread rise and both correlations in thousandths, the duration in tenths of a year.
// `correlation` is that between S1 and S2. `equity_correlation` is that between the four classes of S2: 1,000 where they fall together,
// which gives the largest S2, and 0 where they fall independently, which gives the smallest, so it has no derived default.
#[repr(C)]
#[derive(Clone, Copy)]
pub struct Shocks {
    pub up_shift: u64,
    pub down_shift: u64,
    pub mature_fall: u64,
    pub emerging_fall: u64,
    pub private_fall: u64,
    pub property_fall: u64,
    pub currency_fall: u64,
    pub commodities_fall: u64,
    pub spread_rise: u64,
    pub correlation: u64,
    pub spread: u64,
    pub duration: u64,
    pub equity_correlation: u64,
}

// The head count, and the ages in months.
#[repr(C)]
#[derive(Clone, Copy, Default)]
pub struct People {
    pub heads: u64,
    pub pension_age: u64,
    pub mean_age: u64,
}

// The fields of a case that are no lists. `rate_bytes` is 2 or 4: how many bytes a rate has in the file, and so in which units it is,
// steps of 0.00001 or of 0.0000001.
#[repr(C)]
#[derive(Clone, Copy)]
pub struct CaseFields {
    pub rate_bytes: u64,
    pub ufr: u64,
    pub amounts: Amounts,
    pub shocks: Shocks,
    pub people: People,
}
