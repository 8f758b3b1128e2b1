// All answers as JSON.
use crate::answers::Report;
use anyhow::Result;
use command::Asked;
use command::version::VERSION;
use model::figures::Figures;
use refusal::Refusal;
use report::shown::{NumbersShown, named_figures, show_numbers, word_of};
use report::text::Row;
use serde::{Described, Serialize, Serializer};
use std::alloc::{AllocError, Global};

// The figures under their names, each with its lower and its upper end.
#[derive(Drop)]
struct FiguresShown {
    figures: Figures,
}

impl Described for FiguresShown {}

// By hand, since the names and their order are in one list.
impl Serialize for FiguresShown {
    fn serialize<S: Serializer>(&self, out: &mut S) -> Result<(), S::Error> {
        out.begin_map(Some(10))?;
        for (name, bracket) in named_figures(self.figures) {
            out.key(name)?;
            (bracket.lower, bracket.upper).serialize(out)?;
        }
        out.end_map()
    }
}

#[derive(Drop, Serialize)]
struct Shown<'a> {
    file: &'a str,
    #[serde(flatten)]
    numbers: NumbersShown,
    refusal: Option<u8>,
    refusal_sentence: Option<String>,
    verdict: Option<&'static str>,
    figures: Option<FiguresShown>,
    problem: Option<&'a str>,
}

#[derive(Drop, Serialize)]
struct Answers<'a> {
    version: &'a str,
    unit: &'a str,
    #[serde(skip_serializing_if = "Option::is_none")]
    months: Option<&'a str>,
    #[serde(skip_serializing_if = "Option::is_none")]
    start: Option<u64>,
    // None where there is no history, and nothing in it where there is one without a problem.
    #[serde(skip_serializing_if = "Option::is_none")]
    months_problem: Option<Option<&'a str>>,
    valuations: Vec<Shown<'a>>,
}

fn sentence_of(alloc: Global, refusal: Option<Refusal>) -> Result<Option<String>, AllocError> {
    match refusal {
        Some(refusal) => Ok(Some(format!(in alloc; "{refusal}")?)),
        None => Ok(None),
    }
}

fn show_row<'a>(
    alloc: Global,
    row: &Row<'a>,
    problem: Option<&'a str>,
) -> Result<Shown<'a>, AllocError> {
    let refusal = row.refusal();
    let (verdict, figures) = match row.valuation() {
        Some(found) => (
            Some(word_of(found.verdict)),
            Some(FiguresShown {
                figures: found.figures,
            }),
        ),
        None => (None, None),
    };
    Ok(Shown {
        file: row.name,
        numbers: show_numbers(row.numbers()),
        refusal: refusal.map(Refusal::number),
        refusal_sentence: sentence_of(alloc, refusal)?,
        verdict,
        figures,
        problem,
    })
}

pub(super) fn json_of(alloc: Global, asked: &Asked<'_>, report: &Report<'_>) -> Result<String> {
    let mut valuations = Vec::new(alloc);
    for (row, problem) in report.rows.iter().zip(report.problems.iter()) {
        let problem = problem.as_ref().map(String::as_str);
        valuations.push(show_row(alloc, row, problem)?)?;
    }
    let has_months = asked.months.is_some();
    let months_problem = report.months_problem.as_ref().map(String::as_str);
    let answers = Answers {
        version: VERSION,
        unit: "cents",
        months: asked.months,
        start: has_months.then_some(asked.start),
        months_problem: has_months.then_some(months_problem),
        valuations,
    };
    let mut text = serde_json::to_string_pretty(alloc, &answers)?;
    text.push('\n')?;
    Ok(text)
}
