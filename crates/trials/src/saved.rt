// A case of either form, written by its fields; and what a host is told.
use super::printing::FUND;
use flat::{HostPoint, HostSaved, HostUfr, HostValuation};
use heldcase::Case;
use model::case::{Amounts, CaseFields, People};
use model::figures::Valuation;
use model::window::Point;
use refusal::Refusal;
use saving::given::GivenCase;
use saving::save;

// The fields of the hand-worked case C1.
fn fields(width: u64, ufr: u64) -> CaseFields {
    CaseFields {
        rate_bytes: width,
        ufr,
        amounts: Amounts {
            cash: 1_100_000,
            ..Amounts::default()
        },
        shocks: Case::default().shocks,
        people: People {
            heads: 100,
            pension_age: 780,
            mean_age: 460,
        },
    }
}

// C1 in two bytes, as docs/METHOD.md shows it: no UFR and no bonds are written.
pub(super) const SHORT: &[u8] = b"\0\x76\x01\
\0\0\0\0\0\0\0\0\0\0\0\0\0\0\0\0\0\0\0\0\0\0\0\0\0\0\0\0\0\0\0\0\0\0\0\0\0\0\0\0\0\0\0\0\0\0\0\0\0\0\0\0\0\0\0\0\0\0\0\0\
\0\0\0\0\0\0\0\0\0\0\0\0\0\0\0\0\0\0\0\0\0\0\0\0\0\0\0\0\0\0\0\0\0\0\0\0\0\0\0\0\0\0\0\0\0\0\0\0\0\0\0\0\0\0\0\0\0\0\0\0\
\x01\0\x0f\x42\x40\
\0\0\0\0\0\0\0\0\0\0\0\0\0\0\0\0\0\0\0\0\0\0\0\0\0\0\0\0\0\0\0\0\0\0\0\0\0\0\0\0\0\0\0\0\0\0\0\0\0\0\0\0\0\x10\xc8\xe0\0\0\0\0\0\0\0\0\
\0\0\0\0\0\0\0\0\0\0\0\0\0\0\0\0\0\0\0\0\0\0\0\0\0\0\0\x64\x03\x0c\x01\xcc";

// The same with a UFR of its own, a bond of 7 euros, and rates of -50,000 in four bytes, which are last.
const LONG: &[u8] = b"\0\xfd\x0f\xa0\x01\0\x0f\x42\x40\x01\0\0\0\x07\
\0\0\0\0\0\0\0\0\0\0\0\0\0\0\0\0\0\0\0\0\0\0\0\0\0\0\0\0\0\0\0\0\0\0\0\0\0\0\0\0\0\0\0\0\0\0\0\0\0\0\0\0\0\x10\xc8\xe0\0\0\0\0\0\0\0\0\
\0\0\0\0\0\0\0\0\0\0\0\0\0\0\0\0\0\0\0\0\0\0\0\0\0\0\0\x64\x03\x0c\x01\xcc\
\x01\
\xff\xff\x3c\xb0\xff\xff\x3c\xb0\xff\xff\x3c\xb0\xff\xff\x3c\xb0\xff\xff\x3c\xb0\xff\xff\x3c\xb0\
\xff\xff\x3c\xb0\xff\xff\x3c\xb0\xff\xff\x3c\xb0\xff\xff\x3c\xb0\xff\xff\x3c\xb0\xff\xff\x3c\xb0\
\xff\xff\x3c\xb0\xff\xff\x3c\xb0\xff\xff\x3c\xb0\xff\xff\x3c\xb0\xff\xff\x3c\xb0\xff\xff\x3c\xb0\
\xff\xff\x3c\xb0\xff\xff\x3c\xb0\xff\xff\x3c\xb0\xff\xff\x3c\xb0\xff\xff\x3c\xb0\xff\xff\x3c\xb0\
\xff\xff\x3c\xb0\xff\xff\x3c\xb0\xff\xff\x3c\xb0\xff\xff\x3c\xb0\xff\xff\x3c\xb0\xff\xff\x3c\xb0\
\xff\xff\x3c\xb0\xff\xff\x3c\xb0\xff\xff\x3c\xb0\xff\xff\x3c\xb0\xff\xff\x3c\xb0\xff\xff\x3c\xb0\
\xff\xff\x3c\xb0\xff\xff\x3c\xb0\xff\xff\x3c\xb0\xff\xff\x3c\xb0\xff\xff\x3c\xb0\xff\xff\x3c\xb0\
\xff\xff\x3c\xb0\xff\xff\x3c\xb0\xff\xff\x3c\xb0\xff\xff\x3c\xb0\xff\xff\x3c\xb0\xff\xff\x3c\xb0\
\xff\xff\x3c\xb0\xff\xff\x3c\xb0\xff\xff\x3c\xb0\xff\xff\x3c\xb0\xff\xff\x3c\xb0\xff\xff\x3c\xb0\
\xff\xff\x3c\xb0\xff\xff\x3c\xb0\xff\xff\x3c\xb0\xff\xff\x3c\xb0\xff\xff\x3c\xb0\xff\xff\x3c\xb0";

#[test]
fn a_case_is_saved_in_either_form(rt: HostRuntime) {
    let bonds = [7];
    for (fields, rate, bonds, file) in [
        (fields(2, 4_200), 0, bonds.split_at(0).0, SHORT),
        (fields(4, 4_000), -50_000, bonds.as_slice(), LONG),
    ] {
        let case = GivenCase {
            fields: &fields,
            rates: &[rate; 60],
            pension: &[1_000_000],
            bonds,
        };
        let mut out = [7; 400];
        assert_eq!(rt; save(&case, &mut out), Ok(file.len()));
        let rest = out.strip_prefix(file);
        assert!(rt; rest.is_some_and(|rest| rest.iter().all(|byte| *byte == 7)));
    }
}

// The numbers of refusals, verdicts and kinds are those of include/ginghamowl.h.
#[test]
fn a_host_is_told_numbers(rt: HostRuntime) {
    let valued: HostValuation = Ok(FUND).into();
    let refused: HostValuation = Err(Refusal::Damaged).into();
    assert_eq!(rt;
        [
            valued.refusal,
            valued.verdict,
            refused.refusal,
            refused.verdict
        ],
        [0, 2, 27, 0]
    );
    let again = [valued, refused].map(Valuation::try_from);
    let upper_ends = again.map(|back| back.map(|valuation| valuation.figures.s.upper));
    assert_eq!(rt; upper_ends, [Ok(4_221_232_396), Err(27)]);
    let saved: HostSaved = Err(Refusal::Room).into();
    let ufr: HostUfr = Ok(4_000).into();
    assert_eq!(rt;
        (saved.refusal, saved.written, ufr.refusal, ufr.ufr),
        (14, 0, 0, 4_000)
    );
    let point: HostPoint = Point::Money(2.0, 3.0).into();
    assert_eq!(rt; (point.kind, point.lower, point.upper), (2, 2.0, 3.0));
}
