// A sink that grows.
ghost use Rattle.std.specs.Bool.{OnFalse};
ghost use Rattle.std.specs.Prelude.{◌≡◌, ◌++◌, [], IfOk, OnErr, OnOk};

use std::alloc::Global;
use vms_io::{Failed, NoMemory, Sink};

/// Bytes in memory, which is allocated as they are written. A write fails only if memory runs out.
#[derive(Drop)]
pub struct Growing {
    bytes: Vec<u8>,
    faults: u64,
}

impl Growing {
    ghost use Rattle.vms_board_streams.specs.Memory.{gathered};

    /// Creates a sink without bytes. Nothing is allocated.
    pub fn new(alloc: Global) -> Growing
        ensures bytes { gathered result ≡ [] }
        ensures faults { ⟦<Growing as Sink>⟧.faults result ≡ 0 }
    {
        Growing {
            bytes: Vec::new(alloc),
            faults: 0,
        }
    }

    /// Creates a sink without bytes, which allocates nothing for the first `room` of them.
    ///
    /// # Errors
    ///
    /// - [`NoMemory`]: out of memory.
    pub fn with_room(alloc: Global, room: usize) -> Result<Growing, NoMemory>
        ensures { IfOk result (λ sink. gathered sink ≡ []) }
    {
        Ok(Growing {
            bytes: Vec::with_capacity(alloc, room)?,
            faults: 0,
        })
    }

    /// Reports whether a write has failed because memory ran out.
    pub fn has_failed(&self) -> bool
        ensures { OnFalse result (⟦<Growing as Sink>⟧.faults self.now ≡ 0) }
    {
        self.faults > 0
    }

    /// Returns the bytes that were written.
    pub fn into_bytes(self) -> Vec<u8>
        ensures { result.items ≡ gathered self }
    {
        self.bytes
    }
}

impl Sink for Growing {
    ghost use Rattle.std.specs.Prelude.{Some, None};
    ghost use Rattle.vms_board_streams.specs.Memory.{gathered};

    ghost written = { λ s. Some (gathered s) };

    ghost faults = { λ s. s.faults };

    ghost promise = { λ s. None };

    ghost promised = { λ s. tt };

    /// Appends `piece` and returns its length.
    ///
    /// # Errors
    ///
    /// - [`Failed`]: out of memory. Nothing has been written.
    #[inline(always)]
    fn write(&mut self, piece: &[u8]) -> Result<usize, Failed> {
        match append(&mut self.bytes, piece) {
            Ok(()) => Ok(piece.len()),
            Err(_) => {
                self.faults = self.faults.saturating_add(1);
                Err(Failed)
            }
        }
    }
}

// Appends `piece`, a single byte without a call. Fails only if memory runs out.
#[inline(always)]
#[tactic(auto, using(crate::proofs::FamilyBytes::one_piece))]
fn append(bytes: &mut Vec<u8>, piece: &[u8]) -> Result<(), NoMemory>
    ensures ok { OnOk result (bytes.new.items ≡ bytes.old.items ++ piece.now) }
    ensures err { OnErr result (bytes.new.items ≡ bytes.old.items) }
{
    if piece.len() == 1 {
        bytes.push(piece[0])?;
    } else {
        bytes.extend_from_slice(piece)?;
    }
    Ok(())
}
