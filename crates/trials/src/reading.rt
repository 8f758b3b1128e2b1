// A read that fails in mid-stream: the error comes out, with the count of the bytes before it, and the next call goes on after them.
use super::faults::Breaking;
use batch::{
    Cut, Stopped, for_each, next_length, read_file, read_full, try_next_length, try_read_file,
};
use std::io;
use std::io::{ErrorKind, Write};
use std::process::Abort;
use std::test::Fail;

const FAULTS: [(ErrorKind, usize); 4] = [
    (ErrorKind::Interrupted, 1),
    (ErrorKind::ConnectionReset, 1),
    (ErrorKind::Interrupted, 3),
    (ErrorKind::ConnectionReset, 100),
];

// That it is the fault, after this many bytes.
fn assert_cut<T>(rt: &impl Abort, answer: Result<T, Cut>, kind: ErrorKind, before: usize) {
    let Err(cut) = answer else {
        panic!(rt; "an answer in place of the error");
    };
    assert_eq!(rt; cut.error.kind(), kind);
    assert_eq!(rt; cut.count, before);
}

#[test]
fn a_buffer_is_not_full_where_a_read_fails(rt: HostRuntime) -> Result<(), Fail> {
    for (kind, step) in FAULTS {
        let mut input = Breaking {
            left: b"abcd!!efg",
            step,
            kind,
        };
        let mut buf = [7u8; 6];
        assert_cut(&rt, read_full(&mut input, &mut buf), kind, 4);
        assert!(rt; buf.starts_with(b"abcd"));
        assert_cut(&rt, read_full(&mut input, &mut buf), kind, 0);
        assert_eq!(rt; read_full(&mut input, &mut buf).ok(), Some(3));
        assert!(rt; buf.starts_with(b"efg"));
        assert_eq!(rt; read_full(&mut input, &mut buf).ok(), Some(0));
    }
    Ok(())
}

#[test]
fn neither_length_nor_file_is_told_where_a_read_fails(rt: HostRuntime) -> Result<(), Fail> {
    for (kind, step) in FAULTS {
        let mut input = Breaking {
            left: b"\0\0\0!\0\0\0\x05ab!cde\0\0\0",
            step,
            kind,
        };
        let mut buf = [7u8; 6];
        assert_cut(&rt, try_next_length(&mut input), kind, 3);
        assert_eq!(rt; try_next_length(&mut input).ok(), Some(Some(5)));
        assert_cut(&rt, try_read_file(&mut input, 5, &mut buf), kind, 2);
        assert!(rt; buf.starts_with(b"ab"));
        assert_eq!(rt; try_read_file(&mut input, 3, &mut buf).ok(), Some(Some(3)));
        assert!(rt; buf.starts_with(b"cde"));
        assert_eq!(rt; try_next_length(&mut input).ok(), Some(None));
    }
    Ok(())
}

#[test]
fn a_failed_read_is_told_as_the_end_and_a_part(rt: HostRuntime) {
    for (kind, step) in FAULTS {
        let mut input = Breaking {
            left: b"\0\0\0!\0\0\0\x05ab!cde\0\0\0",
            step,
            kind,
        };
        let mut buf = [7u8; 6];
        assert_eq!(rt; next_length(&mut input), usize::MAX);
        assert_eq!(rt; next_length(&mut input), 5);
        assert_eq!(rt; read_file(&mut input, 7, &mut buf), 0);
        assert_eq!(rt; read_file(&mut input, 5, &mut buf), 2);
        assert!(rt; buf.starts_with(b"ab"));
        assert_eq!(rt; read_file(&mut input, 3, &mut buf), 3);
        assert!(rt; buf.starts_with(b"cde"));
        assert_eq!(rt; next_length(&mut input), usize::MAX);
    }
}

#[test]
fn a_file_that_a_failed_read_cuts_is_visited_as_far_as_it_came(
    rt: HostRuntime,
) -> Result<(), Fail> {
    for (kind, step) in FAULTS {
        for (left, before, visited) in [
            (
                b"\0\0\0\x02ab\0\0\0\x01c\0\0!\0\x01x".as_slice(),
                2,
                b"ab.c.".as_slice(),
            ),
            (
                b"\0\0\0\x02ab\0\0\0\x01c\0\0\0\x09defg!hijk\0\0\0\x01x",
                4,
                b"ab.c.defg.",
            ),
        ] {
            let mut input = Breaking { left, step, kind };
            let mut seen = Vec::new(rt.alloc());
            let told = for_each(&mut input, |file| {
                seen.write_all(file)?;
                seen.write_all(b".")
            });
            let Err(Stopped::Read(cut)) = told else {
                panic!(rt; "no failed read");
            };
            assert_eq!(rt; (cut.error.kind(), cut.count), (kind, before));
            assert_eq!(rt; seen.as_slice(), visited);
        }
    }
    Ok(())
}

#[test]
fn no_file_is_visited_after_an_error(rt: HostRuntime) {
    let mut seen = 0u8;
    let mut files = b"\0\0\0\x01a\0\0\0\x01b\0\0\0\x01c".as_slice();
    let told = for_each(&mut files, |file| {
        seen = seen.saturating_add(1);
        if file == b"b".as_slice() {
            Err(io::Error::from(ErrorKind::StorageFull))
        } else {
            Ok(())
        }
    });
    let Err(Stopped::Write(error)) = told else {
        panic!(rt; "no failed visit");
    };
    assert_eq!(rt; error.kind(), ErrorKind::StorageFull);
    assert_eq!(rt; seen, 2);
}
