// Reading the files that are named, and what is told of each.
use anyhow::Result;
use command::Asked;
use report::input::{History, Told, tell_input};
use report::text::Row;
use std::alloc::{AllocError, Global};
use std::fs::{File, Files};
use std::io;
use std::io::Read;

// A history has 240 bytes: one byte more decides its refusal.
pub const MOST_HISTORY: usize = 241;

// The history that is asked for, or why there is none.
#[derive(Drop)]
pub struct Months<'a> {
    pub found: Option<History<'a>>,
    pub problem: Option<String>,
}

// What is told of each file that is named, and why a file has no answer, in the same order.
#[derive(Drop)]
pub struct Report<'a> {
    pub rows: Vec<Row<'a>>,
    pub problems: Vec<Option<String>>,
    pub months_problem: Option<String>,
}

// Says a problem by the name of its file. Where standard error is closed it is said to nobody, and the answers are written all the same.
pub(super) fn say<R: Eprint>(rt: &R, name: &str, problem: &str) {
    let _said = eprintln!(rt; "{name}: {problem}");
}

pub(super) fn problem_of(alloc: Global, error: &io::Error) -> Result<String, AllocError> {
    format!(in alloc; "cannot be read: {error}")
}

fn read_bytes<R: Files + Input>(rt: &R, name: &str, buffer: &mut [u8]) -> io::Result<usize> {
    let read = if name == "-" {
        batch::read_full(&mut rt.reader(), buffer)
    } else {
        batch::read_full(&mut File::open(rt, name)?, buffer)
    };
    read.map_err(|cut| cut.error)
}

// The bytes of the history that is asked for, in the buffer. Why it cannot be read is said once, by its own name.
pub(super) fn read_history<'a, R: Files + Input + Eprint + AllocGlobal>(
    rt: &R,
    asked: &Asked<'_>,
    buffer: &'a mut [u8],
) -> Result<Months<'a>> {
    let Some(name) = asked.months else {
        return Ok(Months {
            found: None,
            problem: None,
        });
    };
    match read_bytes(rt, name, buffer) {
        Ok(count) => Ok(Months {
            found: buffer.get(..count).map(|bytes| History {
                bytes,
                start: asked.start,
            }),
            problem: None,
        }),
        Err(error) => {
            let problem = problem_of(rt.alloc(), &error)?;
            say(rt, name, problem.as_str());
            Ok(Months {
                found: None,
                problem: Some(problem),
            })
        }
    }
}

fn tell_named<R: Files + Input>(
    rt: &R,
    name: &str,
    history: Option<History<'_>>,
) -> io::Result<Told> {
    let told = if name == "-" {
        tell_input(&mut rt.reader(), history)
    } else {
        tell_input(&mut File::open(rt, name)?, history)
    };
    told.map_err(|cut| cut.error)
}

// What is told of a file, or why nothing is.
fn told_or_problem<R: Files + Input + AllocGlobal>(
    rt: &R,
    name: &str,
    history: &Months<'_>,
    asked: &Asked<'_>,
) -> Result<(Option<Told>, Option<String>), AllocError> {
    if let (Some(months), Some(_)) = (asked.months, &history.problem) {
        let problem = format!(in rt.alloc(); "the history {months} cannot be used")?;
        return Ok((None, Some(problem)));
    }
    match tell_named(rt, name, history.found) {
        Ok(told) => Ok((Some(told), None)),
        Err(error) => Ok((None, Some(problem_of(rt.alloc(), &error)?))),
    }
}

// Reads every file, and says on standard error why one has no answer.
pub(super) fn read_all<'a, R: Files + Input + Eprint + AllocGlobal>(
    rt: &R,
    asked: &Asked<'a>,
    history: Months<'_>,
) -> Result<Report<'a>> {
    let alloc = rt.alloc();
    let mut rows = Vec::new(alloc);
    let mut problems = Vec::new(alloc);
    for name in asked.files.as_slice() {
        let (told, problem) = told_or_problem(rt, name, &history, asked)?;
        if let Some(problem) = &problem {
            say(rt, name, problem.as_str());
        }
        rows.push(Row { name, told })?;
        problems.push(problem)?;
    }
    Ok(Report {
        rows,
        problems,
        months_problem: history.problem,
    })
}
