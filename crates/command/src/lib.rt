// The command line of the program for case files. A crate of its own, since to load the contracts of `clap` takes longer than all else: so it
// is proved beside the engine, and not behind it.
#![tactic(auto)]

pub mod version;

ghost use Rattle.std.specs.Prelude.{IfOk};
ghost use Rattle.command.specs.Call.{HasMark};

use clap::error::ErrorKind;
use clap::{Arg, ArgAction, Command, Error};
use std::alloc::{AllocError, Global};
use version::VERSION;

// How the answers are written. The byte is what separates the cells of CSV.
#[derive(Clone, Copy)]
pub enum Form {
    Text,
    Json,
    Csv(u8),
}

// What a call asks for. Standard input has the name -, and is read where no file is named.
#[derive(Drop)]
pub struct Asked<'a> {
    pub files: Vec<&'a str>,
    pub form: Form,
    pub months: Option<&'a str>,
    pub start: u64,
}

impl Asked<'_> {
    // How often standard input would be read.
    fn input_count(&self) -> usize {
        let of_files = self.files.iter().filter(|name| **name == "-").count();
        of_files.saturating_add(usize::from(self.months == Some("-")))
    }
}

fn command_in<'a>(alloc: Global) -> Result<Command<'a>, AllocError> {
    let files = Arg::new(alloc, "FILE").num_args(0..).help(
        "Case files; - is standard input, which is read where none is named",
    );
    let json = Arg::new(alloc, "json")
        .long("json")
        .action(ArgAction::SetTrue)
        .conflicts_with("csv")?
        .help("Write all answers as JSON");
    let csv = Arg::new(alloc, "csv")
        .long("csv")
        .value_name("MARK")
        .num_args(0..=1)
        .require_equals(true)
        .default_missing_value(",")
        .value_parser([",", ";"].as_slice())
        .help("Write all answers as CSV, a line a file, with this mark between the cells");
    let months = Arg::new(alloc, "months")
        .long("months")
        .value_name("HISTORY")
        .requires_arg("start")?
        .help("Take the UFR of every case from this history of months, 240 bytes");
    let start = Arg::new(alloc, "start")
        .long("start")
        .value_name("N")
        .requires_arg("months")?
        .value_parser(clap::value_parser!(u64))
        .help("The place of its oldest month, 0 to 119");
    Command::new(alloc, "ginghamowl")
        .version(VERSION)
        .about("Values case files and prints their listings")
        .after_help("Exit status: 0 every file was valued, 1 one was refused, 2 one has no answer")
        .arg(json)?
        .arg(csv)?
        .arg(months)?
        .arg(start)?
        .arg(files)
}

// A call that asks for no file to be valued: for help or the version, which are printed, or for what cannot be.
#[derive(Drop)]
pub enum Other {
    Shown(String),
    Mistake(String),
    OutOfMemory,
}

fn other_of(alloc: Global, error: &Error) -> Other {
    match format!(in alloc; "{error}") {
        Ok(text) if error.use_stderr() => Other::Mistake(text),
        Ok(text) => Other::Shown(text),
        Err(_) => Other::OutOfMemory,
    }
}

// What the words of a call ask for, the first of which is the program's name.
pub fn asked_of<'a>(alloc: Global, words: &'a [&'a str]) -> Result<Asked<'a>, Other>
    ensures { IfOk result (λ asked. HasMark asked.form) }
{
    parse(alloc, words).map_err(|error| other_of(alloc, &error))
}

fn parse<'a>(alloc: Global, words: &'a [&'a str]) -> Result<Asked<'a>, Error>
    ensures { IfOk result (λ asked. HasMark asked.form) }
{
    let mut command = command_in(alloc)?;
    let matches = command.try_get_matches_from_mut(words)?;
    let mut files = Vec::new(alloc);
    files.extend_from_slice(matches.get_strs("FILE").unwrap_or(&["-"]))?;
    let form = match matches.get_str("csv") {
        Some(";") => Form::Csv(b';'),
        Some(_) => Form::Csv(b','),
        None if matches.get_flag("json") => Form::Json,
        None => Form::Text,
    };
    let asked = Asked {
        files,
        form,
        months: matches.get_str("months"),
        start: matches.get_one::<u64>("start").unwrap_or(0),
    };
    if asked.input_count() > 1 {
        return Err(command.error(
            ErrorKind::ArgumentConflict,
            "standard input can be read only once",
        )?);
    }
    Ok(asked)
}
