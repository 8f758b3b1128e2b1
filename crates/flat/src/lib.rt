// What a host in another language is given and gives back: structs without enums or slices, and the way to them and back. Figures and
// brackets are laid out as C does it, so these go as they are.
#![tactic(auto)]

pub mod part;

ghost use Rattle.std.specs.Prelude.{◌≡◌};
ghost use Rattle.flat.specs.Flat.{verdict_from, host_valuation_by_number, host_saved_by_number, host_ufr_by_number};

use model::figures::{Figures, Valuation, Verdict};
use model::window::Point;
use refusal::Refusal;

// `refusal` is 0 for a case that is valued. A refused one has verdict 0 and figures of 0.
#[repr(C)]
#[derive(Clone, Copy)]
pub struct HostValuation {
    pub refusal: u8,
    pub verdict: u8,
    pub figures: Figures,
}

// `kind` is 0 for blank, 1 for a factor, 2 for a money figure. The doubles of a blank point are 0.
#[repr(C)]
#[derive(Clone, Copy)]
pub struct HostPoint {
    pub kind: u8,
    pub lower: f64,
    pub upper: f64,
}

// `refusal` is 0 for a case that is saved. `written` counts bytes, and is 0 for a refused one.
#[repr(C)]
#[derive(Clone, Copy)]
pub struct HostSaved {
    pub refusal: u8,
    pub written: usize,
}

// `refusal` is 0 for a UFR that is found. `ufr` counts rate steps, and is 0 for a refused history.
#[repr(C)]
#[derive(Clone, Copy)]
pub struct HostUfr {
    pub refusal: u8,
    pub ufr: u64,
}

// The version of the engine, and the kit that it is proved with: its name in ASCII and zeros after it, at least one, so that C reads it
// as a text.
#[repr(C)]
#[derive(Clone, Copy)]
pub struct HostVersion {
    pub major: u32,
    pub minor: u32,
    pub patch: u32,
    pub kit: [u8; 32],
}

/// The error is the number of a refusal. It is given as it is: also 0, which a host takes for no refusal, and one that no refusal has.
pub fn flat_valuation(answer: Result<Valuation, u8>) -> HostValuation
    ensures { result ≡ host_valuation_by_number answer }
{
    match answer {
        Ok(valued) => HostValuation {
            refusal: 0,
            verdict: valued.verdict as u8,
            figures: valued.figures,
        },
        Err(refusal) => HostValuation {
            refusal,
            verdict: 0,
            figures: Figures::default(),
        },
    }
}

impl From<Result<Valuation, Refusal>> for HostValuation {
    ghost use Rattle.flat.specs.Flat.{host_valuation};

    ghost from_gives = { λ answer host. host ≡ host_valuation answer };

    fn from(answer: Result<Valuation, Refusal>) -> HostValuation {
        flat_valuation(answer.map_err(Refusal::number))
    }
}

// A number that is no verdict's is undecided. A function and no `From`, since neither type is one of this crate.
fn verdict_from(number: u8) -> Verdict
    ensures { result ≡ verdict_from number }
{
    match number {
        1 => Verdict::Dekkingstekort,
        2 => Verdict::Reservetekort,
        3 => Verdict::VrijVermogen,
        _ => Verdict::Onbeslist,
    }
}

/// The error is the number of a refusal, as the host gives it: any but 0. It goes first: beside one, neither the verdict nor the figures
/// are looked at. A host can give numbers that no refusal has, so the error is no `Refusal`.
impl TryFrom<HostValuation> for Valuation {
    ghost use Rattle.flat.specs.Flat.{valuation_from};

    type Error = u8;

    ghost try_from_gives = { λ host answer. answer ≡ valuation_from host };

    fn try_from(host: HostValuation) -> Result<Valuation, u8> {
        if host.refusal != 0 {
            return Err(host.refusal);
        }
        Ok(Valuation {
            figures: host.figures,
            verdict: verdict_from(host.verdict),
        })
    }
}

/// The error is the number of a refusal, as that of `flat_valuation`.
pub fn flat_saved(answer: Result<usize, u8>) -> HostSaved
    ensures { result ≡ host_saved_by_number answer }
{
    match answer {
        Ok(written) => HostSaved {
            refusal: 0,
            written,
        },
        Err(refusal) => HostSaved {
            refusal,
            written: 0,
        },
    }
}

impl From<Result<usize, Refusal>> for HostSaved {
    ghost use Rattle.flat.specs.Flat.{host_saved};

    ghost from_gives = { λ answer host. host ≡ host_saved answer };

    fn from(answer: Result<usize, Refusal>) -> HostSaved {
        flat_saved(answer.map_err(Refusal::number))
    }
}

/// The error is the number of a refusal, as that of `flat_valuation`.
pub fn flat_ufr(answer: Result<u64, u8>) -> HostUfr
    ensures { result ≡ host_ufr_by_number answer }
{
    match answer {
        Ok(ufr) => HostUfr { refusal: 0, ufr },
        Err(refusal) => HostUfr { refusal, ufr: 0 },
    }
}

impl From<Result<u64, Refusal>> for HostUfr {
    ghost use Rattle.flat.specs.Flat.{host_ufr};

    ghost from_gives = { λ answer host. host ≡ host_ufr answer };

    fn from(answer: Result<u64, Refusal>) -> HostUfr {
        flat_ufr(answer.map_err(Refusal::number))
    }
}

impl From<Point> for HostPoint {
    ghost use Rattle.flat.specs.Flat.{host_point};

    ghost from_gives = { λ p host. host ≡ host_point p };

    fn from(p: Point) -> HostPoint {
        let (kind, lower, upper) = match p {
            Point::Blank => (0, 0.0, 0.0),
            Point::Factor(lower, upper) => (1, lower, upper),
            Point::Money(lower, upper) => (2, lower, upper),
        };
        HostPoint { kind, lower, upper }
    }
}
