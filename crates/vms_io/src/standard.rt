// The outside over a reader and a writer of std, with a count of their errors.
ghost use Rattle.std.specs.Prelude.{◌≡◌, ◌+◌, ◌-◌, ◌^◌, ◌<◌, ◌≤◌, [], length, min, take, drop, None, false, IfOk, OnOk, IsErr};
ghost use Rattle.std.proofs.Common.{arith};
ghost use Rattle.std.specs.Io.{WritesAtMost};
ghost use Rattle.std.specs.Io.KnownBytes.{Appends, Consumes, IsAtEnd, Keeps, WriteAppends};
ghost use Rattle.vms_io.specs.Causes.{HasCause, CountsFailures};
ghost use Rattle.vms_io.specs.Gathered.{block};
ghost use Rattle.vms_io.specs.declared.standard.TheConstants.{GATHER};

use crate::{Failed, Sink, Source};
use std::alloc::Global;
use std::io::{ErrorKind, Read, Write};

/// The number of bytes that are requested from a reader at first, and by which a block grows.
const FIRST: usize = 1024;

/// The most bytes that are requested from a reader at once.
const STAGE: usize = 16384;

/// The number of bytes that are buffered for a writer.
const GATHER: usize = 2000;

/// A source over the reader `R`, which is read in blocks. The first block has up to 1,024 bytes.
/// After a full block the next one is longer by 1,024, up to 16,384. Without memory for a longer
/// block the blocks stay as long as they are.
///
/// If the rest of the reader's bytes is known, as a slice's is, the rest of the source's is known
/// too. The rest of a file or a terminal is unknown to contracts.
#[derive(Drop)]
pub struct StdSource<R: Read + Drop> {
    reader: R,
    // The first blocks, and a longer one once there is one. The bytes that were read but not yet
    // given are those from `begin` to `end`.
    first: [u8; FIRST],
    longer: Vec<u8>,
    begin: usize,
    end: usize,
    // The number of bytes that were given of earlier blocks.
    before: u64,
    faults: u64,
    ghost order: { begin ≤ end },
    ghost within: { end ≤ length (block first longer.items) },
}

impl<R: Read + Drop> StdSource<R> {
    ghost use Rattle.vms_io.specs.Ahead.{ahead};

    /// Returns the source over `reader`, with no faults counted.
    pub fn new(alloc: Global, reader: R) -> Self
        ensures left { ⟦<StdSource<R> as Source>⟧.left result ≡ ahead (R.remaining reader) [] }
        ensures faults { ⟦<StdSource<R> as Source>⟧.faults result ≡ 0 }
        ensures given { ⟦<StdSource<R> as Source>⟧.given result ≡ 0 }
    {
        StdSource {
            reader,
            first: [0; FIRST],
            longer: Vec::with_capacity(alloc, STAGE).unwrap_or(Vec::new(alloc)),
            begin: 0,
            end: 0,
            before: 0,
            faults: 0,
        }
    }

    // Returns the block.
    #[inline(always)]
    fn block(&self) -> &[u8]
        ensures { result.now ≡ block self.now.first self.now.longer.items }
    {
        if self.longer.is_empty() {
            &self.first
        } else {
            &self.longer
        }
    }

    // Reads the next block, once all of the last one has been given. It is empty only at the end.
    //
    // A read by bytes or fields mostly finds them staged, and is inlined without this.
    #[inline(never)]
    fn stage(&mut self) -> Result<(), Failed>
        requires { self.old.begin ≡ self.old.end }
        ensures left { Keeps (⟦<StdSource<R> as Source>⟧.left self.old)
            (⟦<StdSource<R> as Source>⟧.left self.new) }
        ensures end { OnOk result (self.new.begin ≡ self.new.end
            → IsAtEnd (⟦<StdSource<R> as Source>⟧.left self.new)) }
        ensures begin { self.new.begin ≡ 0 }
        ensures before { self.new.before ≡ min (self.old.before + self.old.begin) (2 ^ 64 - 1) }
        ensures cause { HasCause self.old.faults self.new.faults result }
        ensures counts { CountsFailures self.old.faults self.new.faults result }
    {
        let full = self.end == self.block().len();
        self.before = self.before.saturating_add(self.begin as u64);
        (self.begin, self.end) = (0, 0);
        if full && self.longer.len() < STAGE {
            self.widen();
        }
        if self.longer.is_empty() {
            self.stage_first()
        } else {
            self.stage_longer()
        }
    }

    // The same, if there is no longer block.
    #[inline(always)]
    fn stage_first(&mut self) -> Result<(), Failed>
        requires empty { (self.old.begin ≡ 0) × (self.old.end ≡ 0) }
        requires none { self.old.longer.items ≡ [] }
        ensures left { Keeps (⟦<StdSource<R> as Source>⟧.left self.old)
            (⟦<StdSource<R> as Source>⟧.left self.new) }
        ensures end { OnOk result (self.new.begin ≡ self.new.end
            → IsAtEnd (⟦<StdSource<R> as Source>⟧.left self.new)) }
        ensures begin { self.new.begin ≡ 0 }
        ensures before { self.new.before ≡ self.old.before }
        ensures cause { HasCause self.old.faults self.new.faults result }
        ensures counts { CountsFailures self.old.faults self.new.faults result }
    {
        match self.reader.read(&mut self.first) {
            Ok(count) => {
                (self.begin, self.end) = (0, count);
                Ok(())
            }
            Err(_) => failed(&mut self.faults),
        }
    }

    // The same, if there is a longer block.
    #[inline(always)]
    fn stage_longer(&mut self) -> Result<(), Failed>
        requires empty { (self.old.begin ≡ 0) × (self.old.end ≡ 0) }
        requires some { 0 < length self.old.longer.items }
        ensures left { Keeps (⟦<StdSource<R> as Source>⟧.left self.old)
            (⟦<StdSource<R> as Source>⟧.left self.new) }
        ensures end { OnOk result (self.new.begin ≡ self.new.end
            → IsAtEnd (⟦<StdSource<R> as Source>⟧.left self.new)) }
        ensures begin { self.new.begin ≡ 0 }
        ensures before { self.new.before ≡ self.old.before }
        ensures cause { HasCause self.old.faults self.new.faults result }
        ensures counts { CountsFailures self.old.faults self.new.faults result }
    {
        match self.reader.read(&mut self.longer) {
            Ok(count) => {
                self.end = count;
                Ok(())
            }
            Err(_) => failed(&mut self.faults),
        }
    }

    // Makes the empty block longer, if there is memory.
    #[inline(never)]
    fn widen(&mut self)
        requires empty { (self.old.begin ≡ 0) × (self.old.end ≡ 0) }
        ensures reader { self.new.reader ≡ self.old.reader }
        ensures begin { self.new.begin ≡ 0 }
        ensures end { self.new.end ≡ 0 }
        ensures before { self.new.before ≡ self.old.before }
        ensures faults { self.new.faults ≡ self.old.faults }
    {
        let long = (self.block().len() + FIRST).min(STAGE);
        // without memory the block stays as it is
        let _longer = self.longer.resize(long, 0);
    }

    // Gives the staged bytes, as many as `buf` has room for.
    #[inline(always)]
    fn give(&mut self, buf: &mut [u8]) -> usize
        ensures count { result ≡ min (length buf.old) (self.old.end - self.old.begin) }
        ensures bound { result ≤ length buf.new }
        ensures bytes { Consumes (⟦<StdSource<R> as Source>⟧.left self.old)
            (⟦<StdSource<R> as Source>⟧.left self.new) (take result buf.new) }
        ensures none { result ≡ 0 → ⟦<StdSource<R> as Source>⟧.left self.new
            ≡ ⟦<StdSource<R> as Source>⟧.left self.old }
        ensures rest { drop result buf.new ≡ drop result buf.old }
        ensures begin { self.new.begin ≡ self.old.begin + result }
        ensures before { self.new.before ≡ self.old.before }
        ensures faults { self.new.faults ≡ self.old.faults }
    {
        let count = buf.len().min(self.end - self.begin);
        let staged = self.block();
        buf[..count].copy_from_slice(&staged[self.begin..self.begin + count]);
        self.begin += count;
        count
    }
}

impl<R: Read + Drop> Source for StdSource<R> {
    ghost use Rattle.vms_io.specs.Ahead.{ahead, ahead_bytes};
    ghost use Rattle.vms_io.specs.Gathered.{between};

    ghost left = { λ s. ahead (R.remaining s.reader)
        (between (block s.first s.longer.items) s.begin s.end) };

    ghost given = { λ s. min (s.before + s.begin) (2 ^ 64 - 1) };

    ghost faults = { λ s. s.faults };

    ghost promise = { λ s. false };

    ghost counted = { λ s. Prim.omega arith };

    ghost promised = { λ s h. Prim.cc };

    ghost octets = { λ s. ahead_bytes (R.remaining s.reader)
        (between (block s.first s.longer.items) s.begin s.end) };

    /// Copies the next bytes into the front of `buf` and returns their number.
    ///
    /// # Errors
    ///
    /// - [`Failed`]: the reader returned an error. Nothing has been read.
    fn read(&mut self, buf: &mut [u8]) -> Result<usize, Failed> {
        if self.begin == self.end {
            self.stage()?;
        }
        Ok(self.give(buf))
    }
}

/// A sink over the writer `W`, such as a file or a terminal, with a buffer of 2,000 bytes.
///
/// The writer gets the bytes when the buffer is full, and at a flush. If what the writer has is
/// known to contracts, so is what the sink has: the writer's bytes and then the buffered ones.
#[derive(Drop)]
pub struct StdSink<W: Write + Drop> {
    writer: W,
    // The bytes that the writer hasn't got yet are those from `begin` to `end`.
    gathered: [u8; GATHER],
    begin: usize,
    end: usize,
    faults: u64,
    ghost order: { begin ≤ end },
    ghost within: { end ≤ GATHER },
}

impl<W: Write + Drop> StdSink<W> {
    ghost use Rattle.vms_io.specs.Gathered.{KeepsFront};
    ghost use Rattle.vms_io.specs.Writers.{writer_of};

    /// Returns the sink over `writer`, with no faults counted and nothing buffered.
    pub fn new(writer: W) -> Self
        ensures faults { ⟦<StdSink<W> as Sink>⟧.faults result ≡ 0 }
        ensures written { ⟦<StdSink<W> as Sink>⟧.written result ≡ W.contents writer }
        ensures writer { writer_of result ≡ writer }
    {
        StdSink {
            writer,
            gathered: [0; GATHER],
            begin: 0,
            end: 0,
            faults: 0,
        }
    }

    /// Returns the writer. It hasn't got the bytes that are still buffered.
    pub fn get_ref(&self) -> &W
        ensures { result.now ≡ writer_of self.now }
    {
        &self.writer
    }

    /// Passes the buffered bytes to the writer, and flushes it.
    ///
    /// # Errors
    ///
    /// - [`Failed`]: the writer returned an error. The bytes that it didn't take are still
    ///   buffered.
    pub fn flush(&mut self) -> Result<(), Failed>
        ensures bytes { Keeps (⟦<StdSink<W> as Sink>⟧.written self.old)
            (⟦<StdSink<W> as Sink>⟧.written self.new) }
        ensures handed { OnOk result (⟦<StdSink<W> as Sink>⟧.written self.new
            ≡ W.contents (writer_of self.new)) }
        ensures front { KeepsFront (⟦<StdSink<W> as Sink>⟧.written self.old)
            (W.contents (writer_of self.new)) }
        ensures cause { HasCause (⟦<StdSink<W> as Sink>⟧.faults self.old)
            (⟦<StdSink<W> as Sink>⟧.faults self.new) result }
        ensures counts { CountsFailures (⟦<StdSink<W> as Sink>⟧.faults self.old)
            (⟦<StdSink<W> as Sink>⟧.faults self.new) result }
    {
        self.hand_on()?;
        match self.writer.flush() {
            Ok(()) => Ok(()),
            Err(_) => failed(&mut self.faults),
        }
    }

    /// Drops the buffered bytes, so that only what the writer has counts as written.
    pub fn discard(&mut self)
        ensures written { ⟦<StdSink<W> as Sink>⟧.written self.new ≡ W.contents (writer_of self.new) }
        ensures writer { writer_of self.new ≡ writer_of self.old }
        ensures front { KeepsFront (⟦<StdSink<W> as Sink>⟧.written self.old)
            (⟦<StdSink<W> as Sink>⟧.written self.new) }
        ensures faults { ⟦<StdSink<W> as Sink>⟧.faults self.new
            ≡ ⟦<StdSink<W> as Sink>⟧.faults self.old }
    {
        (self.begin, self.end) = (0, 0);
    }

    /// Returns the writer. The bytes that are still buffered are dropped.
    pub fn into_inner(self) -> W
        ensures { result ≡ writer_of self }
    {
        self.writer
    }

    // Buffers bytes, for which there is room.
    #[inline(always)]
    fn gather(&mut self, piece: &[u8])
        requires { self.old.end + length piece.now ≤ 2000 }
        ensures bytes { Appends (⟦<StdSink<W> as Sink>⟧.written self.old)
            (⟦<StdSink<W> as Sink>⟧.written self.new) piece.now }
        ensures faults { self.new.faults ≡ self.old.faults }
    {
        let end = self.end + piece.len();
        let gathered = &mut self.gathered[..];
        gathered[self.end..end].copy_from_slice(piece);
        self.end = end;
    }

    // Buffers the first bytes of a piece that doesn't fit. Returns their number.
    #[inline(never)]
    fn spill(&mut self, piece: &[u8]) -> Result<usize, Failed>
        requires { GATHER < self.old.end + length piece.now }
        ensures bound { WritesAtMost result piece.now }
        ensures some { IfOk result (λ n. 0 < n) }
        ensures bytes { WriteAppends (⟦<StdSink<W> as Sink>⟧.written self.old)
            (⟦<StdSink<W> as Sink>⟧.written self.new) result piece.now }
        ensures cause { HasCause self.old.faults self.new.faults result }
    {
        if self.end == GATHER {
            self.hand_on()?;
        }
        let count = piece.len().min(GATHER - self.end);
        self.gather(&piece[..count]);
        Ok(count)
    }

    // Passes all buffered bytes to the writer. After a failure the rest stays buffered.
    fn hand_on(&mut self) -> Result<(), Failed>
        ensures bytes { Keeps (⟦<StdSink<W> as Sink>⟧.written self.old)
            (⟦<StdSink<W> as Sink>⟧.written self.new) }
        ensures empty { OnOk result (self.new.end ≡ 0) }
        ensures cause { HasCause self.old.faults self.new.faults result }
        ensures counts { CountsFailures self.old.faults self.new.faults result }
    {
        for _ in 0..u64::MAX {
            if self.begin == self.end {
                (self.begin, self.end) = (0, 0);
                return Ok(());
            }
            let gathered = &self.gathered[..];
            match self.writer.write(&gathered[self.begin..self.end]) {
                Ok(count) if count > 0 => self.begin += count,
                Err(error) if error.kind() == ErrorKind::Interrupted => {}
                _ => break,
            }
        }
        failed(&mut self.faults)
    }
}

impl<W: Write + Drop> Sink for StdSink<W> {
    ghost use Rattle.vms_io.specs.Gathered.{told, between};

    ghost written = { λ s. told (W.contents s.writer) (between s.gathered s.begin s.end) };

    ghost faults = { λ s. s.faults };

    ghost promise = { λ s. None };

    ghost promised = { λ s. tt };

    /// Buffers the first bytes of `piece`, after a flush of the buffer if it is full. Returns their
    /// number.
    ///
    /// # Errors
    ///
    /// - [`Failed`]: the writer returned an error. Nothing of `piece` has been taken.
    fn write(&mut self, piece: &[u8]) -> Result<usize, Failed> {
        let mut count = piece.len();
        if count <= GATHER - self.end {
            self.gather(piece);
        } else {
            count = self.spill(piece)?;
        }
        Ok(count)
    }
}

// Counts a failure, and returns it.
fn failed(faults: &mut u64) -> Result<(), Failed>
    ensures cause { HasCause faults.old faults.new result }
    ensures counts { CountsFailures faults.old faults.new result }
    ensures error { IsErr result }
{
    *faults = faults.saturating_add(1);
    Err(Failed)
}
