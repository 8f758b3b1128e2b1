// Generic functions, and functions of traits, at types of their own and through their bounds. What they give is worked out by hand.
use arith::end::{End, High, Low};
use arith::ratio::Ratio;
use arith::scale::{Long, Quotient, Short};
use curves::three::Three;
use fields::cursor::Cursor;
use fields::field::{Field, Optional};
use fields::flows;
use fields::rates::{FourBytes, RateForm, TwoBytes};
use fields::ufr::Ufr;
use heldcase::flows::Flows;
use refusal::Refusal;
use rings::Place;

// 10 ÷ 3 in four ways, 10^24 ÷ 3 × 10^12, which the short way does not take, three times a third, whose units are rounded down,
// 7 × 10^13, near the largest number that a ratio takes, times 10^9 ÷ 777,777,777, and the roots of 19 ÷ 2 and of 9.
fn rounded<E: End>() -> [u64; 9] {
    [
        E::divide(10, 3),
        Short::quotient::<E>(5, 2, 3),
        Long::quotient::<E>(5, 2, 3),
        E::times(5, &Ratio::of(2, 3)),
        Long::quotient::<E>(1_000_000_000_000, 1_000_000_000_000, 3_000_000_000_000),
        E::times(3, &Ratio::of(1, 3)),
        E::times(70_000_000_000_000, &Ratio::of(1_000_000_000, 777_777_777)),
        E::root(19, 2),
        E::root(18, 2),
    ]
}

#[test]
fn an_end_rounds_its_own_way(rt: HostRuntime) {
    assert_eq!(rt;
        rounded::<Low>(),
        [3, 3, 3, 3, 333_333_333_333, 1, 90_000_000_090_000, 3, 3]
    );
    assert_eq!(rt;
        rounded::<High>(),
        [4, 4, 4, 4, 333_333_333_334, 1, 90_000_000_090_001, 4, 3]
    );
}

fn rate_in<F: RateForm>(bytes: &[u8]) -> Option<i32> {
    if bytes.len() == F::WIDTH {
        Some(F::rate_of(bytes))
    } else {
        None
    }
}

// Whether rates pass that are just below the lower limit, at it, at the upper limit and just above it.
fn passing<F: RateForm>(lower: i32, upper: i32) -> [bool; 4] {
    [
        F::is_rate(lower.saturating_sub(1)),
        F::is_rate(lower),
        F::is_rate(upper),
        F::is_rate(upper.saturating_add(1)),
    ]
}

// The numbers are those of docs/METHOD.md.
#[test]
fn a_rate_has_two_forms(rt: HostRuntime) {
    let long = b"\xff\xff\x3c\xb0";
    assert_eq!(rt;
        [
            rate_in::<TwoBytes>(b"\xfe\x0c"),
            rate_in::<TwoBytes>(long),
            rate_in::<FourBytes>(long)
        ],
        [Some(-500), None, Some(-50_000)]
    );
    assert_eq!(rt;
        [
            passing::<TwoBytes>(-1_000, 10_000),
            passing::<FourBytes>(-100_000, 1_000_000)
        ],
        [[false, true, true, false]; 2]
    );
    assert_eq!(rt;
        [TwoBytes::UNITS_PER_STEP, FourBytes::UNITS_PER_STEP],
        [1, 100]
    );
}

#[test]
fn three_curves_keep_their_places(rt: HostRuntime) {
    let years = Three {
        base: 1u8,
        up: 2,
        down: 3,
    };
    let twice = years.map(|year: &u8| u64::from(*year) * 2);
    assert_eq!(rt; [twice.base, twice.up, twice.down], [2, 4, 6]);
    let pairs = years.map_with(&twice, |year: &u8, double: &u64| (*double, *year));
    assert_eq!(rt;
        [pairs.base, pairs.up, pairs.down],
        [(2, 1), (4, 2), (6, 3)]
    );
}

#[test]
fn flows_of_another_length(rt: HostRuntime) {
    assert_eq!(rt;
        Flows::<3>::from_slice(&[7, 8, 9]).as_slice(),
        [7u64, 8, 9].as_slice()
    );
    let mut cursor = Cursor::new(b"\x02\0\0\0\x05\0\x0f\x42\x40!");
    match flows::Flows::<3>.read(&mut cursor) {
        Ok(flows) => assert_eq!(rt; flows.as_slice(), [5u64, 1_000_000].as_slice()),
        Err(_) => panic!(rt; "two flows are refused"),
    }
    assert_eq!(rt; cursor.at, 9);
}

#[test]
fn a_field_is_read_where_it_is_there(rt: HostRuntime) {
    for (there, bytes, answer, at) in [
        (true, b"\x10\x69", Ok(4_201), 2),
        (false, b"\x10\x69", Ok(4_200), 0),
        (true, b"\x13\x89", Err(Refusal::Ufr), 2),
    ] {
        let mut cursor = Cursor::new(bytes);
        let field = Optional { there, field: Ufr };
        assert_eq!(rt; field.read(&mut cursor), answer);
        assert_eq!(rt; cursor.at, at);
    }
}

// Of three slots two are held, the oldest in the last.
#[test]
fn a_ring_of_another_size(rt: HostRuntime) {
    let Some(place) = Place::<3>::new(2, 2) else {
        panic!(rt; "no place");
    };
    assert_eq!(rt; [place.slot(0), place.slot(1)], [2, 0]);
    assert_eq!(rt; [place.oldest(), place.free()], [Some(2), Some(1)]);
    assert!(rt; Place::<3>::new(4, 0).is_none() && Place::<3>::new(0, 3).is_none());
}
