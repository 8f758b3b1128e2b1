// Sums of the days of a file, and the same sums as if they were of 255 days, as which no program holds them. What they give is worked out by
// hand.
use fields::cursor::Cursor;
use fields::days::Days;
use fields::field::Field;
use fields::rates::FourBytes;
use fields::sums::{DaySums, WideDaySums};
use refusal::Refusal;

// The sums of one day of four-byte rates, which are 0 but for that of term 60.
fn one_day(last: i32) -> Option<DaySums> {
    let mut bytes = [0u8; 241];
    bytes[0] = 1;
    bytes[237..].copy_from_slice(&last.to_be_bytes());
    match Days(FourBytes).read(&mut Cursor::new(&bytes)) {
        Ok(Some(days)) => Some(days.summed),
        Ok(None) | Err(_) => None,
    }
}

// A forward rate is 60 times the last rate: of one day from -200,000 to 1,200,000 units, of which 100 are a step, and of 255 days from
// -51,000,000 to 306,000,000. P(t) of a rate of 0 is 100,000 steps.
#[test]
fn sums_of_more_days_have_more_room(rt: HostRuntime) {
    for (last, within, raised) in [
        (20_000, Ok(()), 10_020_000),
        (20_001, Err(Refusal::Forward), 10_020_001),
        (-3_333, Ok(()), 9_996_667),
        (-3_334, Err(Refusal::Forward), 9_996_666),
    ] {
        let Some(days) = one_day(last) else {
            panic!(rt; "a day is refused");
        };
        assert_eq!(rt; (days.per_step, days.forwards_within()), (100, within));
        let terms = days.raised();
        assert_eq!(rt; [terms[58], terms[59]], [10_000_000, raised]);
        let wide = WideDaySums {
            per_step: 25_500,
            sums: days.sums,
        };
        assert_eq!(rt; wide.forwards_within(), Ok(()));
        let terms = wide.raised();
        assert_eq!(rt;
            [terms[58], terms[59]],
            [2_550_000_000, 2_540_000_000 + raised]
        );
    }
}
