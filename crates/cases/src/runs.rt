// The runs of a case: with each size of pieces, with each failing call, and cut at each length.

use crate::answer::Answer;
use crate::case::{Case, Cut, add_notes};
use crate::run::{Object, Outside, answer};
use crate::shelf::copy;
use anyhow::Result;
use std::alloc::{AllocError, Global};

/// One run of a case.
#[derive(Clone, Copy)]
pub(crate) struct Run {
    piece: u32,
    /// The number of input bytes that are there.
    long: usize,
    /// The only call that fails.
    alone: Option<(Object, u32)>,
}

/// Returns the runs of `case`.
pub(crate) fn runs(alloc: Global, case: &Case) -> Result<Vec<Run>> {
    let mut runs = Vec::new(alloc);
    for piece in &case.call.pieces {
        add_runs(case, *piece, &mut runs)?;
    }
    Ok(runs)
}

// Appends the runs with pieces of one size.
fn add_runs(case: &Case, piece: u32, runs: &mut Vec<Run>) -> Result<(), AllocError> {
    let whole = case.call.input.len();
    if case.call.faults.each.is_empty() {
        runs.push(run_of(piece, whole, None))?;
    }
    for (object, last) in &case.call.faults.each {
        for number in 1..=*last {
            runs.push(run_of(piece, whole, Some((*object, number))))?;
        }
    }
    if !case.wanted.cuts.is_empty() {
        for long in 0..whole {
            runs.push(run_of(piece, long, None))?;
        }
    }
    Ok(())
}

fn run_of(piece: u32, long: usize, alone: Option<(Object, u32)>) -> Run {
    Run { piece, long, alone }
}

/// Checks whether this run has another answer than the wanted one. If so, appends both to `text`.
pub(crate) fn is_different(
    alloc: Global,
    case: &Case,
    run: &Run,
    text: &mut String,
) -> Result<bool> {
    if run.long >= case.call.input.len() {
        return is_answer_different(alloc, case, run, &case.wanted.answer, text);
    }
    let mut wanted = Answer::new(alloc);
    cut(alloc, case, run.long, &mut wanted)?;
    is_answer_different(alloc, case, run, &wanted, text)
}

fn is_answer_different(
    alloc: Global,
    case: &Case,
    run: &Run,
    wanted: &Answer,
    text: &mut String,
) -> Result<bool> {
    let came = answer(alloc, &outside(case, run))?;
    if came.fits(wanted, case.wanted.may_be_begun) {
        return Ok(false);
    }
    tell_run(alloc, case, run, text)?;
    wanted.tell(alloc, "\n    wanted: ", text)?;
    came.tell(alloc, "\n    came:   ", text)?;
    text.push_str("\n")?;
    Ok(true)
}

fn outside<'a, 'b>(case: &'a Case<'b>, run: &'a Run) -> Outside<'a, 'b> {
    Outside {
        words: case.call.words.as_slice(),
        input: case.call.input.get(..run.long).unwrap_or(&[]),
        piece: run.piece,
        fails: match &run.alone {
            Some(alone) => std::slice::from_ref(alone),
            None => case.call.faults.fails.as_slice(),
        },
        rooms: case.call.rooms,
        shelf: &case.call.shelf,
        names: &case.wanted.answer.shelf,
    }
}

// Changes the wanted answer into that for an input that ends early.
fn cut(alloc: Global, case: &Case, long: usize, wanted: &mut Answer) -> Result<()> {
    let whole = &case.wanted.answer;
    let line = line_at(&case.wanted.cuts, long);
    wanted.taken = Some(long);
    wanted.status = if line.is_empty() { whole.status } else { 1 };
    if line.is_empty() {
        wanted.out.extend_from_slice(&whole.out)?;
    }
    add_notes(line, &mut wanted.notes)?;
    copy(alloc, &whole.shelf, &mut wanted.shelf)
}

// Returns the line for an input of this length. It is empty if the input is complete.
fn line_at<'a>(cuts: &[Cut<'a>], long: usize) -> &'a str {
    let mut line = "";
    for cut in cuts {
        if cut.from <= long {
            line = cut.line;
        }
    }
    line
}

// Appends what is special about a run: the size of its pieces, the length of the input, and the call that fails.
fn tell_run(alloc: Global, case: &Case, run: &Run, text: &mut String) -> Result<(), AllocError> {
    text.push_str(&format!(in alloc; "  {}", case.name)?)?;
    if run.piece > 0 {
        text.push_str(&format!(in alloc; ", in pieces of {}", run.piece)?)?;
    }
    if run.long < case.call.input.len() {
        text.push_str(&format!(in alloc; ", cut at {}", run.long)?)?;
    }
    if let Some((object, number)) = run.alone {
        text.push_str(&format!(in alloc; ", {object:?} failing at {number}")?)?;
    }
    Ok(())
}
