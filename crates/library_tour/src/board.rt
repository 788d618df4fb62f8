// A board that is saved while it sends a line; a second board resumes from its stream.
use anyhow::{Context, Result, bail};
use std::alloc::Global;
use vms_board::{Board, Event};
use vms_io::{MemSink, MemSource};
use vms_kinds::NEWEST_SET;

/// Writes that set the serial port to 9600 baud, switch its FIFOs on and send two bytes.
const WRITES: [(u16, u8); 7] = [
    (0x3fb, 0x83),
    (0x3f8, 0x0c),
    (0x3f9, 0x00),
    (0x3fb, 0x03),
    (0x3fa, 0x01),
    (0x3f8, b'o'),
    (0x3f8, b'k'),
];

/// Sends two bytes on a board, and the second of them on a restored board as well.
///
/// # Errors
///
/// An error if memory runs out, or if saving or restoring fails.
pub fn send_a_line(rt: &HostRuntime) -> Result<()> {
    let mut board = Board::new(rt.alloc(), 2).ok().context("memory")?;
    send(rt, &mut board)
}

#[tactic(auto, unfolding(dev_board::specs::Step::names_wire))]
fn send(rt: &HostRuntime, board: &mut Board) -> Result<()> {
    for (port, value) in WRITES {
        board.event(Event::Write { port, value });
    }
    println!(rt; "before: {:?}", sent(board))?;
    let mut other = carried(rt.alloc(), board)?;
    go_on(rt, board, &mut other)
}

fn go_on(rt: &HostRuntime, board: &mut Board, other: &mut Board) -> Result<()> {
    println!(rt; "after: {:?} and {:?}", sent(board), sent(other))?;
    Ok(())
}

// Returns the first byte that is sent while time passes.
#[tactic(auto, unfolding(dev_board::specs::Step::names_wire))]
fn sent(board: &mut Board) -> Option<u8> {
    let answer = board.event(Event::Wait { ns: 1_500_000 });
    answer.sent.first().copied()
}

// Returns the board that the stream of `board` restores.
fn carried(alloc: Global, board: &Board) -> Result<Board> {
    let level = board.number();
    if level < 1 || level > NEWEST_SET {
        bail!("no such level");
    }
    let mut sink = MemSink::new(alloc, 65536, Vec::new(alloc))
        .ok()
        .context("memory")?;
    board.save(alloc, NEWEST_SET, &mut sink)?;
    let stream = sink.bytes().to_vec(alloc)?;
    let mut source = MemSource::new(stream, Vec::new(alloc), Vec::new(alloc));
    let mut other = Board::new(alloc, level).ok().context("memory")?;
    other.restore(&mut source)?;
    Ok(other)
}
