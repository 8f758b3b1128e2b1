// All answers as CSV, a line a file. What a file does not have is empty.
use crate::answers::Report;
use anyhow::{Error, Result};
use command::Asked;
use command::version::VERSION;
use csv::WriterBuilder;
use model::figures::Figures;
use refusal::Refusal;
use report::shown::{named_figures, show_numbers, word_of};
use report::text::Row;
use std::alloc::{AllocError, Global};
use std::fmt::Display;

// The cells of a line, each with the name of its column.
#[derive(Drop)]
struct Line {
    alloc: Global,
    names: Vec<String>,
    cells: Vec<String>,
}

impl Line {
    fn put<T: Display + Drop>(&mut self, name: &str, value: Option<T>) -> Result<(), AllocError> {
        self.names.push(format!(in self.alloc; "{name}")?)?;
        let cell = match value {
            Some(value) => format!(in self.alloc; "{value}")?,
            None => String::new(self.alloc),
        };
        self.cells.push(cell)?;
        Ok(())
    }
}

fn put_figures(line: &mut Line, figures: Option<Figures>) -> Result<(), AllocError> {
    let is_there = figures.is_some();
    for (name, bracket) in named_figures(figures.unwrap_or_default()) {
        let lower = format!(in line.alloc; "{name}_lower")?;
        line.put(lower.as_str(), is_there.then_some(bracket.lower))?;
        let upper = format!(in line.alloc; "{name}_upper")?;
        line.put(upper.as_str(), is_there.then_some(bracket.upper))?;
    }
    Ok(())
}

fn put_numbers(line: &mut Line, row: &Row<'_>, has_months: bool) -> Result<(), AllocError> {
    let shown = show_numbers(row.numbers());
    if !has_months {
        line.put("ufr", shown.ufr)?;
    }
    line.put("ufr_from", shown.ufr_from)?;
    line.put("rate_bytes", shown.rate_bytes)?;
    line.put("days", shown.days)?;
    line.put("pension_flows", shown.pension_flows)?;
    line.put("pension_sum", shown.pension_sum)?;
    line.put("bond_flows", shown.bond_flows)?;
    line.put("bond_sum", shown.bond_sum)?;
    line.put("assets_sum", shown.assets_sum)
}

fn line_of(
    alloc: Global,
    asked: &Asked<'_>,
    row: &Row<'_>,
    problem: Option<&str>,
) -> Result<Line, AllocError> {
    let mut line = Line {
        alloc,
        names: Vec::new(alloc),
        cells: Vec::new(alloc),
    };
    let refusal = row.refusal();
    let (verdict, figures) = match row.valuation() {
        Some(found) => (Some(word_of(found.verdict)), Some(found.figures)),
        None => (None, None),
    };
    line.put("file", Some(row.name))?;
    line.put("version", Some(VERSION))?;
    if let Some(history) = asked.months {
        line.put("months", Some(history))?;
        line.put("start", Some(asked.start))?;
        line.put("ufr", show_numbers(row.numbers()).ufr)?;
    }
    line.put("refusal", refusal.map(Refusal::number))?;
    line.put("verdict", verdict)?;
    put_figures(&mut line, figures)?;
    line.put("problem", problem)?;
    line.put("refusal_sentence", refusal)?;
    put_numbers(&mut line, row, asked.months.is_some())?;
    Ok(line)
}

pub(super) fn csv_of(
    alloc: Global,
    asked: &Asked<'_>,
    report: &Report<'_>,
    mark: u8,
) -> Result<Vec<u8>> {
    let mut builder = WriterBuilder::new();
    builder.delimiter(mark);
    let mut writer = builder.from_writer(Vec::new(alloc));
    let nothing = Row {
        name: "",
        told: None,
    };
    let head = line_of(alloc, asked, &nothing, None)?;
    writer
        .write_record(head.names.as_slice())
        .map_err(Error::msg)?;
    for (row, problem) in report.rows.iter().zip(report.problems.iter()) {
        let line = line_of(alloc, asked, row, problem.as_ref().map(String::as_str))?;
        writer
            .write_record(line.cells.as_slice())
            .map_err(Error::msg)?;
    }
    writer.into_inner().map_err(Error::msg)
}
