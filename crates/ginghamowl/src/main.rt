// Values case files and prints their listings, or all answers as JSON or CSV. Without a file it reads one from standard input.
#![tactic(auto)]

mod answers;
mod json;
mod sheet;

use answers::{Report, problem_of, say};
use anyhow::{Context, Error, Result};
use batch::Stopped;
use command::{Asked, Form, Other, asked_of};
use report::input::{History, print_input};
use report::text::{status_of, text_of};
use std::alloc::AllocError;
use std::env::Env;
use std::fs::Files;
use std::io;
use std::io::Write;
use std::process::ExitCode;

// The status where there is no answer: 1 is that of a refusal.
const NO_ANSWER: u8 = 2;

fn main(rt: HostRuntime) -> ExitCode {
    match run(&rt) {
        Ok(status) => ExitCode::from(status),
        Err(error) => {
            // Where standard error is closed it is said to nobody.
            let _said = eprintln!(rt; "ginghamowl: {error:#}");
            ExitCode::from(NO_ANSWER)
        }
    }
}

fn run<R: Env + Files + Input + Print + Eprint + AllocGlobal>(rt: &R) -> Result<u8> {
    let alloc = rt.alloc();
    let words: Vec<String> = std::env::args(rt)
        .context("a word of the call is no UTF-8")?
        .collect(alloc)?;
    let mut names: Vec<&str> = Vec::new(alloc);
    for word in words.as_slice() {
        names.push(word.as_str())?;
    }
    match asked_of(alloc, names.as_slice()) {
        Ok(asked) => answer(rt, &asked),
        Err(Other::Shown(text)) => {
            print!(rt; "{text}")?;
            Ok(0)
        }
        Err(Other::Mistake(text)) => {
            // Where standard error is closed it is said to nobody.
            let _said = eprint!(rt; "{text}");
            Ok(NO_ANSWER)
        }
        Err(Other::OutOfMemory) => Err(Error::from(AllocError)),
    }
}

// Whether the listing of standard input alone is asked for.
fn reads_one_input(asked: &Asked<'_>) -> bool {
    matches!(asked.form, Form::Text) && matches!(asked.files.as_slice(), ["-"])
}

// The answers in the form that is asked for, and the status to end with.
fn answer<R: Files + Input + Print + Eprint + AllocGlobal>(
    rt: &R,
    asked: &Asked<'_>,
) -> Result<u8> {
    let mut buffer = [0u8; answers::MOST_HISTORY];
    let history = answers::read_history(rt, asked, &mut buffer)?;
    if reads_one_input(asked) && history.problem.is_none() {
        return answer_input(rt, history.found);
    }
    let report = answers::read_all(rt, asked, history)?;
    let status = status_of(report.rows.as_slice());
    write_report(rt, asked, &report).context("the answer could not be written")?;
    Ok(status)
}

// The listing of standard input.
fn answer_input<R: Input + Print + Eprint + AllocGlobal>(
    rt: &R,
    history: Option<History<'_>>,
) -> Result<u8> {
    match print_input(&mut rt.reader(), history, &mut io::writer(rt)) {
        Ok(status) => Ok(status),
        Err(Stopped::Read(cut)) => {
            let problem = problem_of(rt.alloc(), &cut.error)?;
            say(rt, "-", problem.as_str());
            Ok(NO_ANSWER)
        }
        Err(Stopped::Write(error)) => {
            Err(Error::from(error)).context("the answer could not be written")
        }
    }
}

fn write_report<R: Print + AllocGlobal>(
    rt: &R,
    asked: &Asked<'_>,
    report: &Report<'_>,
) -> Result<()> {
    let alloc = rt.alloc();
    let mut out = io::writer(rt);
    match asked.form {
        Form::Text => out.write_all(text_of(alloc, report.rows.as_slice())?.as_slice())?,
        Form::Json => out.write_all(json::json_of(alloc, asked, report)?.as_bytes())?,
        Form::Csv(mark) => out.write_all(sheet::csv_of(alloc, asked, report, mark)?.as_slice())?,
    }
    Ok(())
}
