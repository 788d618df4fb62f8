// A topic: its cases are run, and those that differ are printed.

use crate::bytes::{Known, Named};
use crate::case::{Case, Shared};
use crate::entry::Entry;
use crate::runs::{is_different, runs};
use crate::shelf::{put, put_all, put_copy};
use anyhow::{Context, Result};
use std::alloc::Global;
use std::collections::BTreeMap;
use std::fs;
use std::rt::Files;
use toml::Table;

/// The number of a topic's cases, of their runs and of those that differ, and how they differ.
#[derive(Drop)]
struct Tally {
    cases: u32,
    runs: u32,
    different: u32,
    differences: String,
}

/// Runs the cases of topic `name` and prints how many there are and which differ.
///
/// Returns whether the result is the one that the topic asks for: none differs, or each one does if
/// they are wrong on purpose.
pub(crate) fn is_as_wanted<R: Files + AllocGlobal + Print>(rt: &R, name: &str) -> Result<bool> {
    let table = table_of(rt, name)?;
    let topic = Entry::new(&table);
    let mut tally = Tally::new(rt.alloc());
    run_topic(rt, name, topic, &mut tally)?;
    print_tally(rt, name, topic, &tally)?;
    Ok(tally.is_wanted(topic.flag("wrong")?))
}

fn table_of<R: Files + AllocGlobal>(rt: &R, name: &str) -> Result<Table> {
    let path = format!(in rt.alloc(); "{name}.toml")?;
    table_at(rt, path.as_str())
}

fn table_at<R: Files + AllocGlobal>(rt: &R, path: &str) -> Result<Table> {
    let text = fs::read_to_string(rt, path).context(format_args!("reading {path}"))?;
    toml::table_from_str(rt.alloc(), &text).context(format_args!("in {path}"))
}

fn run_topic<R: Files + AllocGlobal>(
    rt: &R,
    name: &str,
    topic: Entry,
    tally: &mut Tally,
) -> Result<()> {
    topic.has_only(&["about", "wrong", "words", "bytes", "files", "shelf", "case"])?;
    let mut shared = Shared::new(rt.alloc());
    if let Some(files) = topic.entry("files")? {
        read_files(rt, files, &mut shared.known.outs)?;
    }
    run_cases(rt.alloc(), topic, &mut shared, tally).context(format_args!("in {name}"))
}

// Reads the files next to the topics that a table names.
fn read_files<R: Files + AllocGlobal>(rt: &R, table: Entry, files: &mut Named) -> Result<()> {
    for name in table.names() {
        let file = table.text(name)?.context("no file under a name")?;
        read_file(rt, name, file, files)?;
    }
    Ok(())
}

fn read_file<R: Files + AllocGlobal>(
    rt: &R,
    name: &str,
    file: &str,
    files: &mut Named,
) -> Result<()> {
    let bytes = fs::read(rt, file).context(format_args!("reading {file}"))?;
    put(rt.alloc(), files, name, bytes)
}

fn run_cases<'a>(
    alloc: Global,
    topic: Entry<'a>,
    shared: &mut Shared<'a>,
    tally: &mut Tally,
) -> Result<()> {
    shared.read(alloc, topic)?;
    for entry in topic.list("case")? {
        let mut case = Case::new(alloc);
        let read = case.read(alloc, shared, Entry::of(entry)?);
        read.context(format_args!("case {}", tally.cases))?;
        run_case(alloc, &case, tally)?;
        let out = &case.wanted.answer.out;
        put_copy(alloc, &mut shared.known.outs, case.name, out)?;
    }
    Ok(())
}

// Runs a case up to its first difference.
fn run_case(alloc: Global, case: &Case, tally: &mut Tally) -> Result<()> {
    tally.cases = tally.cases.saturating_add(1);
    let runs = runs(alloc, case)?;
    for run in &runs {
        tally.runs = tally.runs.saturating_add(1);
        if is_different(alloc, case, run, &mut tally.differences)? {
            tally.different = tally.different.saturating_add(1);
            break;
        }
    }
    Ok(())
}

impl Tally {
    fn new(alloc: Global) -> Tally {
        Tally {
            cases: 0,
            runs: 0,
            different: 0,
            differences: String::new(alloc),
        }
    }

    // Checks whether the right number of cases differ.
    fn is_wanted(&self, is_wrong: bool) -> bool {
        self.different == if is_wrong { self.cases } else { 0 }
    }
}

fn print_tally<R: Print>(rt: &R, name: &str, topic: Entry, tally: &Tally) -> Result<()> {
    let about = topic.text("about")?.unwrap_or("");
    let Tally {
        cases,
        runs,
        different,
        differences,
    } = tally;
    print!(rt;
        "{name}: {cases} cases, {runs} runs, {different} different ({about})\n{differences}"
    )?;
    Ok(())
}

impl<'a> Shared<'a> {
    fn new(alloc: Global) -> Shared<'a> {
        Shared {
            words: Vec::new(alloc),
            shelf: BTreeMap::new(alloc),
            known: Known {
                rows: None,
                outs: BTreeMap::new(alloc),
            },
        }
    }

    // Reads what the cases of a topic share.
    fn read(&mut self, alloc: Global, topic: Entry<'a>) -> Result<()> {
        self.known.rows = topic.entry("bytes")?;
        put_all(alloc, &self.known, topic.entry("shelf")?, &mut self.shelf)?;
        topic.add_texts("words", &mut self.words)
    }
}
