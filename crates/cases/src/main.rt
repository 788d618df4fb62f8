//! Runs worked cases that are given as data. It prints how many there are on each topic and which
//! of them differ.
//!
//! The arguments name the topics. Each is a file `TOPIC.toml` next to the program. `docs/cases.md`
//! describes its form.
#![tactic(auto)]

mod answer;
mod bytes;
mod case;
mod entry;
mod run;
mod runs;
mod shelf;
mod topic;

use anyhow::Result;
use std::env;
use std::process::ExitCode;

const AS_WANTED: u8 = 0;

const DIFFERENT: u8 = 1;

fn main(rt: HostRuntime) -> Result<ExitCode> {
    let mut status = AS_WANTED;
    for name in env::args(&rt)?.skip(1) {
        if !topic::is_as_wanted(&rt, name.as_str())? {
            status = DIFFERENT;
        }
    }
    Ok(ExitCode::from(status))
}
