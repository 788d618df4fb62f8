//! A tour of the library: a set, a stream of it, a refusal, an upgrade, a device of one's own, and
//! a board.
//!
//! `docs/library.md` explains it and quotes it.
#![tactic(auto)]

mod board;
mod lamp;
mod set;
mod stream;

use anyhow::{Context, Result, bail};
use lamp::{Lamp, saved};
use set::lamp_set;
use std::alloc::Global;
use vms_check::check;
use vms_desc::DescSet;
use vms_load::{LoadFault, Loader};

fn main(rt: HostRuntime) -> Result<()> {
    let stream = lamp_stream(rt.alloc())?;
    println!(rt; "a lamp's stream has {} bytes", stream.len())?;
    load_back(&rt, &stream)?;
    upgrade(&rt)?;
    board::send_a_line(&rt)
}

// Returns the stream of a lamp.
fn lamp_stream(alloc: Global) -> Result<Vec<u8>> {
    let set = lamp_set(alloc, 1).ok().context("a set")?;
    let cells = saved(&Lamp {
        brightness: 75,
        is_on: true,
    });
    let image = stream::image_of(alloc, &set, cells[0], cells[1])?;
    stream::written(alloc, &set, &[image])
}

// Loads a stream, and then the same without its last three bytes.
fn load_back(rt: &HostRuntime, stream: &[u8]) -> Result<()> {
    let set = lamp_set(rt.alloc(), 1).ok().context("a set")?;
    let mut loader = Loader::new(rt.alloc(), set).ok().context("memory")?;
    tell(rt, &mut loader, stream)
}

fn tell(rt: &HostRuntime, loader: &mut Loader, stream: &[u8]) -> Result<()> {
    let end = stream.len().saturating_sub(3);
    println!(rt; "whole: {}", told(rt.alloc(), loader, stream)?)?;
    println!(rt; "cut: {}", told(rt.alloc(), loader, &stream[..end])?)?;
    println!(rt; "kept: {:?}", stream::lamp_of(loader.images()))?;
    Ok(())
}

// Returns what loading `bytes` results in.
fn told(alloc: Global, loader: &mut Loader, bytes: &[u8]) -> Result<String> {
    match stream::load(loader, alloc, bytes.to_vec(alloc)?) {
        Ok(machine) => Ok(format!(in alloc; "taken, with machine {machine:?}")?),
        Err(LoadFault::Refused(refusal)) => Ok(format!(in alloc; "{refusal:?}")?),
        Err(LoadFault::ReadFault) => bail!("no read of a source in memory fails"),
    }
}

// Checks whether version 2 reads what version 1 writes, and the other way round.
fn upgrade(rt: &HostRuntime) -> Result<()> {
    let old = lamp_set(rt.alloc(), 1).ok().context("a set")?;
    let new = lamp_set(rt.alloc(), 2).ok().context("a set")?;
    compare(rt, &old, &new)
}

fn compare(rt: &HostRuntime, old: &DescSet, new: &DescSet) -> Result<()> {
    println!(rt; "upgrade: {:?}", check(old, new))?;
    println!(rt; "downgrade: {:?}", check(new, old))?;
    Ok(())
}
