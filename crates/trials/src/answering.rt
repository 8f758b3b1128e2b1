// What is answered of a case file: what is printed, and which error is told, where a read fails in mid-stream, or a write fails or takes
// little at a time; with the file's own UFR and with that of a history. And what is told and printed of files by their names.
use super::faults::{Breaking, Narrow};
use super::saved::SHORT;
use batch::Stopped;
use refusal::Refusal;
use report::input::{History, Told, print_input, tell_input};
use report::numbers::UfrSource;
use report::text::{Row, status_of, text_of};
use std::io::ErrorKind;
use std::test::Fail;

// The listing of the hand-worked case C1, cases/c1.txt. It has no flow that a UFR moves.
const LISTING: &[u8] = b"L 100000000 100000000
B 0 0
A 110000000 110000000
S1 0 0
S2 0 0
S3 0 0
S4 0 0
S5 0 0
S6 10000000 10000000
S 10000000 10000000
V VRIJ VERMOGEN
";

// 120 months of 4,112 steps, whose mean is 4,100 to the nearest 100.
const MONTHS: History<'static> = History {
    bytes: &[0x10; 240],
    start: 37,
};

#[test]
fn nothing_is_printed_where_a_read_fails(rt: HostRuntime) -> Result<(), Fail> {
    for (count, step) in [(0, 1), (1, 1), (100, 7), (223, 1), (224, 1000)] {
        for (kind, history) in [
            (ErrorKind::Interrupted, None),
            (ErrorKind::ConnectionReset, Some(MONTHS)),
        ] {
            let (before, _) = SHORT.split_at(count);
            let mut bytes = Vec::new(rt.alloc());
            bytes.extend_from_slice(before)?;
            bytes.extend_from_slice(b"!!")?;
            let mut input = Breaking {
                left: bytes.as_slice(),
                step,
                kind,
            };
            let mut out = Vec::new(rt.alloc());
            for told in [count, 0] {
                let Err(Stopped::Read(cut)) = print_input(&mut input, history, &mut out) else {
                    panic!(rt; "no failed read after {count} bytes");
                };
                assert_eq!(rt; (cut.count, cut.error.kind()), (told, kind));
                assert!(rt; out.is_empty());
            }
        }
    }
    Ok(())
}

#[test]
fn nothing_is_told_where_a_read_fails(rt: HostRuntime) -> Result<(), Fail> {
    let mut input = Breaking {
        left: b"\0\x76\x01!\0",
        step: 2,
        kind: ErrorKind::ConnectionReset,
    };
    let Err(cut) = tell_input(&mut input, None) else {
        panic!(rt; "an answer in place of the error");
    };
    assert_eq!(rt;
        (cut.count, cut.error.kind()),
        (3, ErrorKind::ConnectionReset)
    );
    Ok(())
}

#[test]
fn the_listing_is_printed_or_the_error_of_a_write_told(rt: HostRuntime) -> Result<(), Fail> {
    for history in [None, Some(MONTHS)] {
        for (room, step) in [
            (0, 1),
            (1, 7),
            (8, 1),
            (141, 1000),
            (142, 1),
            (142, 1000),
            (200, 7),
        ] {
            let mut input = Breaking {
                left: SHORT,
                step,
                kind: ErrorKind::Other,
            };
            let mut out = Narrow {
                held: Vec::new(rt.alloc()),
                step,
                room,
                interrupted: false,
                turn: false,
            };
            match print_input(&mut input, history, &mut out) {
                Ok(status) => assert_eq!(rt; (status, LISTING.len() <= room), (0, true)),
                Err(Stopped::Write(error)) => assert_eq!(rt;
                    (error.kind(), room < LISTING.len()),
                    (ErrorKind::StorageFull, true)
                ),
                Err(Stopped::Read(_)) => panic!(rt; "a failed read"),
            }
            assert_eq!(rt; Some(out.held.as_slice()), LISTING.get(..room.min(142)));
        }
    }
    Ok(())
}

fn told_of(mut file: &[u8], history: Option<History<'_>>) -> Option<Told> {
    tell_input(&mut file, history).ok()
}

#[test]
fn numbers_are_told_of_a_valued_file(rt: HostRuntime) {
    let numbers = told_of(SHORT, None).and_then(|told| told.numbers);
    let Some(own) = numbers else {
        panic!(rt; "no numbers");
    };
    assert_eq!(rt; (own.ufr, own.rate_bytes, own.days), (4_200, 2, 1));
    assert!(rt; matches!(own.ufr_source, UfrSource::Default));
    assert_eq!(rt; (own.pension_flows, own.pension_sum), (1, 1_000_000));
    assert_eq!(rt;
        (own.bond_flows, own.bond_sum, own.assets_sum),
        (0, 0, 1_100_000)
    );
    let numbers = told_of(SHORT, Some(MONTHS)).and_then(|told| told.numbers);
    let Some(found) = numbers else {
        panic!(rt; "no numbers with months");
    };
    assert_eq!(rt; (found.ufr, found.assets_sum), (4_100, 1_100_000));
    assert!(rt; matches!(found.ufr_source, UfrSource::History));
}

#[test]
fn several_files_have_blocks_and_one_status(rt: HostRuntime) -> Result<(), Fail> {
    let valued = Row {
        name: "a",
        told: told_of(SHORT, None),
    };
    let refused = Row {
        name: "b",
        told: told_of(b"\0\x76", None),
    };
    let unread = Row {
        name: "c",
        told: None,
    };
    let refusal = refused.told.and_then(|told| told.valuation.err());
    assert_eq!(rt; refusal, Some(Refusal::EndsEarly));
    let text = text_of(rt.alloc(), &[refused, valued, unread])?;
    let rest = text.strip_prefix(b"b\nR 1\n\na\n");
    assert_eq!(rt;
        rest.and_then(|rest| rest.strip_prefix(LISTING)),
        Some(b"\nc\nno answer\n".as_slice())
    );
    assert_eq!(rt; text_of(rt.alloc(), &[valued])?.as_slice(), LISTING);
    assert!(rt; text_of(rt.alloc(), &[unread])?.is_empty());
    assert_eq!(rt; status_of(&[valued]), 0);
    assert_eq!(rt; status_of(&[valued, refused]), 1);
    assert_eq!(rt; status_of(&[refused, unread, valued]), 2);
    Ok(())
}
