// A source over bytes in memory.
ghost use Rattle.std.specs.Prelude.{◌≡◌, ◌^◌, ◌<◌, ◌≤◌, [], length, drop, IfOk, Some};
ghost use Rattle.std.specs.Io.{ReadsAtMost};
ghost use Rattle.std.specs.Io.KnownBytes.{ReadConsumes};
ghost use Rattle.vms_io.specs.Causes.{HasCause, Gives};
ghost use Rattle.vms_kinds.specs.Bytes.{IsBytes};
ghost use Rattle.vms_io.specs.Memory.{IsNextRead, is_empty, empty_is, piece_of, bytes_left};

use super::is_listed;
use crate::{Failed, Source};

/// A source of bytes in memory, which come in pieces of chosen lengths. The reads of chosen numbers
/// fail.
#[derive(Drop)]
pub struct MemSource {
    bytes: Vec<u8>,
    at: usize,
    pieces: Vec<u32>,
    failing: Vec<u32>,
    calls: u64,
    given: u64,
    faults: u64,
    ghost within: { at ≤ length bytes.items },
    ghost octets: { IsBytes bytes.items },
    ghost counted: { given < 2 ^ 64 },
    ghost quiet: { failing.items ≡ [] → faults ≡ 0 },
}

impl MemSource {
    ghost use Rattle.vms_io.specs.Supplies.{supply};

    /// Returns a source of `bytes`.
    ///
    /// Reads are counted from 1. Read k gives at most the k-th number of `pieces`, where 0 means 1;
    /// reads after the end of that list aren't limited. Exactly the reads whose numbers are in
    /// `failing` fail.
    pub fn new(bytes: Vec<u8>, pieces: Vec<u32>, failing: Vec<u32>) -> Self
        ensures { supply result ≡ record {
          left = bytes.items;
          pieces = pieces.items;
          failing = failing.items;
          calls = 0;
          given = 0;
          faults = 0;
        } }
    {
        MemSource {
            bytes,
            at: 0,
            pieces,
            failing,
            calls: 0,
            given: 0,
            faults: 0,
        }
    }

    // Returns the greatest number of bytes of the next read.
    fn piece(&self) -> usize
        ensures { result ≡ piece_of (supply self.now).pieces (supply self.now).calls }
    {
        let next = match self.pieces.get(self.calls as usize) {
            Some(piece) => *piece as usize,
            None => usize::MAX,
        };
        next.max(1)
    }
}

impl Source for MemSource {
    ghost use Rattle.vms_io.specs.Supplies.{supply};

    ghost left = { λ s. Some (supply s).left };

    ghost given = { λ s. (supply s).given };

    ghost faults = { λ s. (supply s).faults };

    ghost promise = { λ s. is_empty (supply s).failing };

    ghost counted = { λ s. s.counted };

    ghost promised = { λ s h. s.quiet (empty_is s.failing.items h) };

    ghost octets = { λ s. bytes_left s.bytes.items s.at s.octets };

    /// Copies the next bytes into the front of `buf` and returns their number.
    ///
    /// # Errors
    ///
    /// - [`Failed`]: this is a read that must fail. Nothing has been read.
    fn read(&mut self, buf: &mut [u8]) -> Result<usize, Failed>
        ensures bound { ReadsAtMost result buf.new }
        ensures bytes { ReadConsumes (Some (supply self.old).left) (Some (supply self.new).left)
            result buf.new }
        ensures rest { IfOk result (λ n. drop n buf.new ≡ drop n buf.old) }
        ensures given { Gives (supply self.old).given (supply self.new).given result }
        ensures cause { HasCause (supply self.old).faults (supply self.new).faults result }
        ensures promise { is_empty (supply self.new).failing ≡ is_empty (supply self.old).failing }
        ensures next { IsNextRead (supply self.old) (supply self.new) (length buf.old) result }
    {
        let piece = self.piece();
        self.calls = self.calls.saturating_add(1);
        if is_listed(&self.failing, self.calls) {
            self.faults = self.faults.saturating_add(1);
            return Err(Failed);
        }
        let rest = self.bytes.len() - self.at;
        let count = piece.min(buf.len()).min(rest);
        buf[..count].copy_from_slice(&self.bytes[self.at..self.at + count]);
        self.at += count;
        self.given = self.given.saturating_add(count as u64);
        Ok(count)
    }
}
