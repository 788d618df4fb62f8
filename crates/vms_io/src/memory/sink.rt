// A sink in memory.
ghost use Rattle.std.specs.Prelude.{◌≡◌, ◌<◌, ◌≤◌, [], length, IfOk, Some, vec_capacity};
ghost use Rattle.std.specs.Io.{WritesAtMost};
ghost use Rattle.std.specs.Io.KnownBytes.{WriteAppends};
ghost use Rattle.vms_io.specs.Causes.{HasCause};
ghost use Rattle.vms_io.specs.Memory.{IsNextWrite, promise_of, promise_kept};

use super::is_listed;
use crate::{Failed, NoMemory, Sink};
use std::alloc::Global;

/// A sink in memory with room for a fixed number of bytes. The writes of chosen numbers fail.
#[derive(Drop)]
pub struct MemSink {
    bytes: Vec<u8>,
    room: usize,
    failing: Vec<u32>,
    calls: u64,
    faults: u64,
    ghost capacity: { room ≤ vec_capacity bytes },
    ghost within: { length bytes.items ≤ room },
    ghost quiet: { failing.items ≡ [] → length bytes.items < room → faults ≡ 0 },
}

impl MemSink {
    ghost use Rattle.vms_io.specs.Supplies.{store};

    /// Returns an empty sink with room for `room` bytes.
    ///
    /// All memory is taken here, so no write takes any. Writes are counted from 1. A write fails
    /// exactly if its number is in `failing`, or if its piece has bytes and there is no room left.
    ///
    /// # Errors
    ///
    /// - [`NoMemory`]: out of memory.
    pub fn new(alloc: Global, room: u32, failing: Vec<u32>) -> Result<MemSink, NoMemory>
        ensures { IfOk result (λ s.
            store s ≡ record {
              bytes = [];
              room = room;
              failing = failing.items;
              calls = 0;
              faults = 0;
            }) }
    {
        let bytes = Vec::with_capacity(alloc, room as usize).map_err(|_| NoMemory)?;
        Ok(MemSink {
            bytes,
            room: room as usize,
            failing,
            calls: 0,
            faults: 0,
        })
    }

    /// Returns the bytes that have been written.
    pub fn bytes(&self) -> &[u8]
        ensures { result.now ≡ (store self.now).bytes }
    {
        &self.bytes
    }
}

impl Sink for MemSink {
    ghost use Rattle.vms_io.specs.Supplies.{store};

    ghost written = { λ s. Some (store s).bytes };

    ghost faults = { λ s. (store s).faults };

    ghost promise = { λ s. promise_of (store s).failing (store s).room };

    ghost promised = { λ s. promise_kept s.failing.items s.room s.bytes.items s.faults s.quiet };

    /// Appends the first bytes of `piece`: all of them, or as many as there is room for. Returns
    /// their number.
    ///
    /// # Errors
    ///
    /// - [`Failed`]: this is a write that must fail, or there is no room left for a piece that
    ///   isn't empty. Nothing has been written.
    fn write(&mut self, piece: &[u8]) -> Result<usize, Failed>
        ensures bound { WritesAtMost result piece.now }
        ensures some { IfOk result (λ n. 0 < length piece.now → 0 < n) }
        ensures bytes { WriteAppends (Some (store self.old).bytes) (Some (store self.new).bytes)
            result piece.now }
        ensures cause { HasCause (store self.old).faults (store self.new).faults result }
        ensures promise { promise_of (store self.new).failing (store self.new).room
            ≡ promise_of (store self.old).failing (store self.old).room }
        ensures next { IsNextWrite (store self.old) (store self.new) (length piece.now) result }
    {
        self.calls = self.calls.saturating_add(1);
        let left = self.room - self.bytes.len();
        if is_listed(&self.failing, self.calls) || left == 0 && !piece.is_empty() {
            self.faults = self.faults.saturating_add(1);
            return Err(Failed);
        }
        let count = left.min(piece.len());
        match self.bytes.extend_from_slice(&piece[..count]) {
            Ok(()) => Ok(count),
            Err(_) => unreachable!(),
        }
    }
}
