// What is printed of several files, and the status to end with.
ghost use Rattle.std.specs.Prelude.{◌≡◌, ◌++◌, IfOk, OnOk, is_none};
ghost use Rattle.std.specs.List.{list_any};
ghost use Rattle.method.specs.Listing.{listing};
ghost use Rattle.refusal.specs.Numbered.{answer_of};
ghost use Rattle.report.specs.Report.{answer_text, block, numbers_told, refusal_told, refuses, report, status, valuation_told};

use crate::input::Told;
use crate::numbers::Numbers;
use model::figures::Valuation;
use refusal::Refusal;
use std::alloc::{AllocError, Global};

/// A file by its name, and what is told of it, if it could be read.
#[derive(Clone, Copy)]
pub struct Row<'a> {
    pub name: &'a str,
    pub told: Option<Told>,
}

impl Row<'_> {
    /// The numbers of the case, of a file that is valued.
    pub fn numbers(&self) -> Option<Numbers>
        ensures { result ≡ numbers_told self.now.told }
    {
        self.told?.numbers
    }

    /// The valuation of a file that is valued.
    pub fn valuation(&self) -> Option<Valuation>
        ensures { result ≡ valuation_told self.now.told }
    {
        self.told?.valuation.ok()
    }

    /// Why a file is refused, if it is.
    pub fn refusal(&self) -> Option<Refusal>
        ensures { result ≡ refusal_told self.now.told }
    {
        self.told?.valuation.err()
    }
}

fn push_listing(text: &mut Vec<u8>, valuation: Result<Valuation, Refusal>) -> Result<(), AllocError>
    ensures { OnOk result (text.new.items ≡ text.old.items ++ listing (answer_of valuation)) }
{
    text.extend_from_slice(listing::text_of(valuation.map_err(Refusal::number)).as_slice())
}

// The listing of a file, or other words where nothing is told of it.
fn push_answer(text: &mut Vec<u8>, told: Option<Told>, none: &[u8]) -> Result<(), AllocError>
    ensures { OnOk result (text.new.items ≡ text.old.items ++ answer_text told none.now) }
{
    match told {
        Some(told) => push_listing(text, told.valuation),
        None => text.extend_from_slice(none),
    }
}

// The listing of a file under its name.
fn push_block(text: &mut Vec<u8>, row: Row<'_>) -> Result<(), AllocError>
    ensures { OnOk result (text.new.items ≡ text.old.items ++ block row.entry) }
{
    text.extend_from_slice(row.name.as_bytes())?;
    text.extend_from_slice(b"\n")?;
    push_answer(text, row.told, b"no answer\n")
}

/// The listing of one file as it is; of several, each under its name and with an empty line between.
pub fn text_of(alloc: Global, rows: &[Row<'_>]) -> Result<Vec<u8>, AllocError>
    ensures { IfOk result (λ text. text.items ≡ report rows.now) }
{
    let mut text = Vec::new(alloc);
    let Some((first, others)) = rows.split_first() else {
        return Ok(text);
    };
    if others.is_empty() {
        push_answer(&mut text, first.told, b"")?;
        return Ok(text);
    }
    push_block(&mut text, *first)?;
    for row in others {
        text.extend_from_slice(b"\n")?;
        push_block(&mut text, *row)?;
    }
    Ok(text)
}

fn is_refused(told: Option<Told>) -> bool
    ensures { result ≡ refuses told }
{
    match told {
        Some(told) => told.valuation.is_err(),
        None => false,
    }
}

fn has_no_answer(rows: &[Row<'_>]) -> bool
    ensures { result ≡ list_any (λ row. is_none row.told) rows.now }
{
    rows.iter().any(|row| row.told.is_none())
}

fn has_refusal(rows: &[Row<'_>]) -> bool
    ensures { result ≡ list_any (λ row. refuses row.told) rows.now }
{
    rows.iter().any(|row| is_refused(row.told))
}

/// The status to end with: 2 where nothing is told of a file, else 1 where one is refused, else 0.
pub fn status_of(rows: &[Row<'_>]) -> u8
    ensures { result ≡ status rows.now }
{
    if has_no_answer(rows) {
        2
    } else if has_refusal(rows) {
        1
    } else {
        0
    }
}
