// What a valuation gives: brackets in cents, and the verdict. Hosts are given brackets and figures as C lays structs out.

pub use arith::bracket::Bracket;

// The ten money figures, by their names in the listing.
#[repr(C)]
#[derive(Clone, Copy, Default)]
pub struct Figures {
    pub l: Bracket,
    pub b: Bracket,
    pub a: Bracket,
    pub s1: Bracket,
    pub s2: Bracket,
    pub s3: Bracket,
    pub s4: Bracket,
    pub s5: Bracket,
    pub s6: Bracket,
    pub s: Bracket,
}

// The numbers are those that a host is told.
#[derive(Clone, Copy)]
pub enum Verdict {
    Dekkingstekort = 1,
    Reservetekort,
    VrijVermogen,
    Onbeslist,
}

// What a case that is not refused is worth.
#[derive(Clone, Copy)]
pub struct Valuation {
    pub figures: Figures,
    pub verdict: Verdict,
}
