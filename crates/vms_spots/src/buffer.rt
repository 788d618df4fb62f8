// The bytes of a state.
ghost use Rattle.vms_spec.specs.declared.TheConstants.{MOST_ITEMS};
ghost use Rattle.std.specs.Prelude.{◌≡◌, ◌+◌, ◌*◌, ◌≤◌, ◌<◌, length, get_or, slice_set, replicate, take, drop, pos, IfOk};
ghost use Rattle.vms_kinds.specs.Codes.{InRange, code, width};
ghost use Rattle.vms_kinds.specs.declared.Kind.TheVariants.{U8};
ghost use Rattle.vms_spots.specs.Spots.{spots_of, raw_of, codes_of, AreOne, put_from, values_of};

use crate::{Spot, lay_out, size};
use std::alloc::{AllocError, Global};
use std::marker::Model;
use vms_kinds::Kind;

/// The numbers of a state in one buffer of bytes.
///
/// Each number is at its spot, big-endian, and the bytes between the spots are 0. Contracts see the
/// kinds and the numbers of the cells.
#[derive(Drop)]
pub struct Buffer {
    spots: Vec<Spot>,
    bytes: Vec<u8>,
}

impl Model for Buffer {
    ghost use Rattle.vms_spots.specs.Spots.{Held, held, IsHeld};

    ghost Value = { Held };

    ghost view = { λ b. held b.spots.items b.bytes.items };

    ghost invariant = { λ b. IsHeld b.spots.items b.bytes.items };
}

impl Buffer {
    /// Returns the buffer of numbers of these `kinds`, all 0.
    ///
    /// # Errors
    ///
    /// - [`AllocError`]: out of memory.
    ///
    /// # Requires
    ///
    /// There are at most [`MOST_ITEMS`] kinds.
    pub fn new(alloc: Global, kinds: &[Kind]) -> Result<Buffer, AllocError>
        requires { length kinds.now ≤ MOST_ITEMS }
        ensures { IfOk result (λ b.
            b ≡ record {
              kinds = kinds.now;
              numbers = replicate (length kinds.now) (pos 0);
            }) }
    {
        let spots = lay_out(alloc, kinds)?;
        let bytes = vec![in alloc; 0; size(&spots) as usize]?;
        Ok(Buffer { spots, bytes })
    }

    /// Returns a buffer of the same kinds with the same numbers.
    ///
    /// # Errors
    ///
    /// - [`AllocError`]: out of memory.
    pub fn copy(&self, alloc: Global) -> Result<Buffer, AllocError>
        ensures { IfOk result (λ b. b ≡ self.now) }
    {
        Ok(Buffer {
            spots: self.spots.to_vec(alloc)?,
            bytes: self.bytes.to_vec(alloc)?,
        })
    }

    /// Copies the numbers of `other` into this buffer.
    ///
    /// # Requires
    ///
    /// `other` has the same kinds.
    pub fn copy_from(&mut self, other: &Buffer)
        requires { self.old.kinds ≡ other.now.kinds }
        ensures { self.new ≡ other.now }
    {
        self.bytes.copy_from_slice(&other.bytes);
    }

    /// Returns how many numbers there are.
    pub fn len(&self) -> u32
        ensures { result ≡ length self.now.numbers }
    {
        self.spots.len() as u32
    }

    /// Returns the spot of each number.
    pub fn spots(&self) -> &[Spot]
        ensures spots { result.now ≡ spots_of self.now.kinds }
        ensures count { length result.now ≡ length self.now.numbers }
    {
        &self.spots
    }

    /// Returns the number of cell `cell`, which is in the range of the cell's kind.
    ///
    /// # Requires
    ///
    /// There is such a cell.
    pub fn get(&self, cell: u32) -> i128
        requires { cell < length self.now.numbers }
        ensures number { result ≡ get_or self.now.numbers cell (pos 0) }
        ensures range { InRange (get_or self.now.kinds cell U8) result }
    {
        let spot = self.spots[cell as usize];
        let offset = spot.offset as usize;
        let end = spot.end() as usize;
        spot.kind.read(&self.bytes[offset..end])
    }

    /// Returns the code of the number of cell `cell`: its bytes, big-endian.
    ///
    /// # Requires
    ///
    /// There is such a cell.
    pub fn code(&self, cell: u32) -> &[u8]
        requires { cell < length self.now.numbers }
        ensures { result.now ≡ code (get_or self.now.kinds cell U8)
            (get_or self.now.numbers cell (pos 0)) }
    {
        let spot = self.spots[cell as usize];
        let offset = spot.offset as usize;
        let end = spot.end() as usize;
        &self.bytes[offset..end]
    }

    /// Returns the codes of the numbers of `count` consecutive cells from `first` on, one after the
    /// other.
    ///
    /// # Requires
    ///
    /// There are these cells, and all are of kind `kind`.
    pub fn codes(&self, first: u32, count: u32, kind: Kind) -> &[u8]
        requires room { first + count ≤ length self.now.numbers }
        requires one { AreOne self.now.kinds first count kind }
        ensures { result.now ≡ codes_of kind (take count (drop first self.now.numbers)) }
    {
        if count == 0 {
            return &self.bytes[..0];
        }
        let offset = self.spots[first as usize].offset as usize;
        let end = offset + count as usize * kind.width();
        &self.bytes[offset..end]
    }

    /// Sets the number of cell `cell` to `value`. Everything else is unchanged.
    ///
    /// # Requires
    ///
    /// There is such a cell, and `value` is in the range of its kind.
    pub fn set(&mut self, cell: u32, value: i128)
        requires cell { cell < length self.old.numbers }
        requires range { InRange (get_or self.old.kinds cell U8) value }
        ensures { self.new ≡ record self.old { numbers = slice_set self.old.numbers cell value } }
    {
        let spot = self.spots[cell as usize];
        let offset = spot.offset as usize;
        let end = spot.end() as usize;
        spot.kind.write(value, &mut self.bytes[offset..end]);
    }

    /// Stores the numbers with these `codes` in `count` consecutive cells from `first` on.
    /// Everything else is unchanged.
    ///
    /// # Requires
    ///
    /// There are these cells, and all are of kind `kind`, which isn't `Bool`: so each code is a
    /// number's. `codes` has the bytes of `count` codes.
    pub fn put_codes(&mut self, first: u32, count: u32, kind: Kind, codes: &[u8])
        requires room { first + count ≤ length self.old.numbers }
        requires one { AreOne self.old.kinds first count kind }
        requires number { kind ≡ Kind.Bool → ⊥ }
        requires long { length codes.now ≡ count * width kind }
        ensures { self.new ≡ record self.old {
          numbers = put_from self.old.numbers first (values_of kind count codes.now);
        } }
    {
        if count == 0 {
            return;
        }
        let offset = self.spots[first as usize].offset as usize;
        self.bytes[offset..offset + codes.len()].copy_from_slice(codes);
    }

    /// Returns the bytes: the code of each number at its spot, and 0 elsewhere.
    pub fn raw(&self) -> &[u8]
        ensures { result.now ≡ raw_of self.now.kinds self.now.numbers }
    {
        &self.bytes
    }
}
