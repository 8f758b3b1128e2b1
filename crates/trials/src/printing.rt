// A listing that is printed: whole where a writer takes a byte at a time or is interrupted, and the error where it fails.
use super::faults::Narrow;
use listing::print;
use model::figures::{Bracket, Figures, Valuation, Verdict};
use std::io::ErrorKind;
use std::test::Fail;

// The figures of cases/fund.case, and the text that the reference writes of them, cases/fund.txt.
pub(super) const FUND: Valuation = Valuation {
    figures: Figures {
        l: Bracket {
            lower: 24828785716,
            upper: 24828785797,
        },
        b: Bracket {
            lower: 12803985026,
            upper: 12803985051,
        },
        a: Bracket {
            lower: 27608985026,
            upper: 27608985051,
        },
        s1: Bracket {
            lower: 1800516910,
            upper: 1800517124,
        },
        s2: Bracket {
            lower: 2564000000,
            upper: 2564000000,
        },
        s3: Bracket {
            lower: 820000000,
            upper: 820000000,
        },
        s4: Bracket {
            lower: 183000000,
            upper: 183000000,
        },
        s5: Bracket {
            lower: 87801920,
            upper: 87801920,
        },
        s6: Bracket {
            lower: 1634845839,
            upper: 1634845846,
        },
        s: Bracket {
            lower: 4221232236,
            upper: 4221232396,
        },
    },
    verdict: Verdict::Reservetekort,
};

const TEXT: &[u8] = b"L 24828785716 24828785797
B 12803985026 12803985051
A 27608985026 27608985051
S1 1800516910 1800517124
S2 2564000000 2564000000
S3 820000000 820000000
S4 183000000 183000000
S5 87801920 87801920
S6 1634845839 1634845846
S 4221232236 4221232396
V RESERVETEKORT
";

#[test]
fn a_listing_is_whole_by_short_writes(rt: HostRuntime) -> Result<(), Fail> {
    for (step, interrupted) in [(1, false), (1, true), (100, true), (1000, false)] {
        let mut out = Narrow {
            held: Vec::new(rt.alloc()),
            step,
            room: 512,
            interrupted,
            turn: false,
        };
        print(&mut out, Ok(FUND))?;
        print(&mut out, Err(12))?;
        assert_eq!(rt; out.held.strip_prefix(TEXT), Some(b"R 12\n".as_slice()));
    }
    Ok(())
}

#[test]
fn the_error_of_a_write_comes_out(rt: HostRuntime) -> Result<(), Fail> {
    for (step, room) in [(1, 0), (1, 1), (7, 100), (1000, TEXT.len() - 1)] {
        let mut out = Narrow {
            held: Vec::new(rt.alloc()),
            step,
            room,
            interrupted: false,
            turn: false,
        };
        for _ in 0..2 {
            let told = print(&mut out, Ok(FUND));
            assert_eq!(rt;
                told.err().map(|error| error.kind()),
                Some(ErrorKind::StorageFull)
            );
            assert_eq!(rt; Some(out.held.as_slice()), TEXT.get(..room));
        }
    }
    Ok(())
}
