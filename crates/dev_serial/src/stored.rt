// The FIFOs in a stream.
ghost use Rattle.std.specs.Prelude.{◌≡◌, ◌+◌, ◌<◌, ◌≤◌, length};
ghost use Rattle.std.specs.List.{range_with_len, list_all};
ghost use Rattle.dev_serial.specs.Stored.{byte_of, padded as padded_of, is_held_or_zero as is_held_or_zero_of};
ghost use Rattle.dev_serial.specs.Cells.{AreBytesIn, bytes_at as bytes_at_of};
ghost use Rattle.vms_kinds.specs.declared.TheConstants.{MOST_CELLS};
ghost use Rattle.dev_serial.specs.declared.stored.TheConstants.{ARRAY_CELLS, RING_CELLS};
ghost use Rattle.dev_serial.specs.declared.fifo.TheConstants.{FIFO_BYTES};

use crate::fifo::FIFO_BYTES;
use arrayvec::ArrayVec;
use dev_base::byte_at;
use vms_kinds::DevCells;

/// The number of cells of a counted array: the count and sixteen bytes.
pub(crate) const ARRAY_CELLS: usize = FIFO_BYTES + 1;

/// The number of cells of a ring: sixteen bytes, the index of the first byte held, and the number
/// held.
pub(crate) const RING_CELLS: usize = FIFO_BYTES + 2;

/// The number of cells of a port in the newest set. Older sets have fewer.
pub const PORT_CELLS: usize = 84;

/// A list of bytes as a counted array: their number, and sixteen bytes that begin with them.
#[derive(Clone, Copy)]
pub(crate) struct Counted {
    /// The number of bytes held.
    pub count: u8,
    /// The bytes held, followed by bytes that aren't part of the list.
    pub bytes: [u8; FIFO_BYTES],
}

impl Counted {
    ghost use Rattle.dev_serial.specs.Stored.{counted_of, counted_bytes};
    ghost use Rattle.dev_serial.specs.Cells.{array_cells, array_at};

    /// Returns the array of `bytes`, at most sixteen, with zeros after them.
    pub fn of(bytes: &[u8]) -> Counted
        requires { length bytes.now ≤ FIFO_BYTES }
        ensures { result ≡ counted_of bytes.now }
    {
        Counted {
            count: bytes.len() as u8,
            bytes: padded(bytes),
        }
    }

    /// Returns the first `count` bytes, at most sixteen.
    pub fn list(&self) -> ArrayVec<u8, FIFO_BYTES>
        ensures items { result.items ≡ counted_bytes self.now }
        ensures few { length result.items ≤ FIFO_BYTES }
    {
        let mut list = ArrayVec::new();
        for i in 0..usize::from(self.count.min(FIFO_BYTES as u8)) {
            list.push(self.bytes[i]);
        }
        list
    }

    /// Returns the cells: `count`, and then the sixteen bytes.
    #[tactic(auto, unfolding(crate::specs::Cells::array_cells))]
    pub fn cells(&self) -> ArrayVec<i128, ARRAY_CELLS>
        ensures items { result.items ≡ array_cells self.now }
        ensures count { length result.items ≡ ARRAY_CELLS }
    {
        let mut cells = ArrayVec::new();
        cells.push(i128::from(self.count));
        for byte in &self.bytes {
            cells.push(i128::from(*byte));
        }
        cells
    }

    /// Returns the array whose count is the cell at index `place`.
    pub fn at(cells: &DevCells, place: usize) -> Counted
        requires small { place < MOST_CELLS }
        requires within { place + ARRAY_CELLS ≤ length cells.now.items }
        requires in_range { AreBytesIn cells.now.items place ARRAY_CELLS }
        ensures { result ≡ array_at cells.now.items place }
    {
        Counted {
            count: byte_at(cells, place),
            bytes: bytes_at(cells, place + 1),
        }
    }
}

/// A list of bytes as a ring: it begins at `head` and wraps around after element 15.
#[derive(Clone, Copy)]
pub(crate) struct Ring {
    /// The sixteen elements.
    pub elements: [u8; FIFO_BYTES],
    /// The index of the oldest byte.
    pub head: u8,
    /// The number of bytes held.
    pub number: u8,
}

impl Ring {
    ghost use Rattle.dev_serial.specs.Stored.{ring_of, ring_bytes, ring_holds};
    ghost use Rattle.dev_serial.specs.Cells.{ring_cells, ring_at};

    /// Returns the ring of `bytes`, at most sixteen, which begins at element 0.
    pub fn of(bytes: &[u8]) -> Ring
        requires { length bytes.now ≤ FIFO_BYTES }
        ensures { result ≡ ring_of bytes.now }
    {
        Ring {
            elements: padded(bytes),
            head: 0,
            number: bytes.len() as u8,
        }
    }

    /// Returns the bytes held, from `head` on. An invalid ring has such bytes too.
    pub fn list(&self) -> ArrayVec<u8, FIFO_BYTES>
        ensures items { result.items ≡ ring_bytes self.now }
        ensures few { length result.items ≤ FIFO_BYTES }
    {
        let mut list = ArrayVec::new();
        for i in 0..usize::from(self.number.min(FIFO_BYTES as u8)) {
            list.push(self.elements[(self.head as usize + i) % FIFO_BYTES]);
        }
        list
    }

    /// Reports whether `head` and `number` are valid and all elements that aren't held are 0.
    #[tactic(auto, unfolding(crate::specs::Stored::ring_holds))]
    pub fn holds(&self) -> bool
        ensures { result ≡ ring_holds self.now }
    {
        self.head <= 15
            && self.number <= FIFO_BYTES as u8
            && (self.number != 0 || self.head == 0)
            && self.is_zero_outside()
    }

    // Reports whether each element that isn't held is 0.
    fn is_zero_outside(&self) -> bool
        requires { self.now.head ≤ 15 }
        ensures { result ≡ list_all (is_held_or_zero_of self.now) (range_with_len 0 FIFO_BYTES) }
    {
        for place in 0..FIFO_BYTES {
            if !self.is_held_or_zero(place) {
                return false;
            }
        }
        true
    }

    // Reports whether an element is held or 0.
    fn is_held_or_zero(&self, place: usize) -> bool
        requires head { self.now.head ≤ 15 }
        requires place { place < FIFO_BYTES }
        ensures { result ≡ is_held_or_zero_of self.now place }
    {
        let behind_head = (place + FIFO_BYTES - self.head as usize) % FIFO_BYTES;
        behind_head < self.number as usize || self.elements[place] == 0
    }

    /// Returns the cells: the sixteen elements, `head` and `number`.
    #[tactic(auto, unfolding(crate::specs::Cells::ring_cells))]
    pub fn cells(&self) -> ArrayVec<i128, RING_CELLS>
        ensures items { result.items ≡ ring_cells self.now }
        ensures count { length result.items ≡ RING_CELLS }
    {
        let mut cells = ArrayVec::new();
        for byte in &self.elements {
            cells.push(i128::from(*byte));
        }
        cells.push(i128::from(self.head));
        cells.push(i128::from(self.number));
        cells
    }

    /// Returns the ring whose first element is the cell at index `place`.
    pub fn at(cells: &DevCells, place: usize) -> Ring
        requires small { place < MOST_CELLS }
        requires within { place + RING_CELLS ≤ length cells.now.items }
        requires in_range { AreBytesIn cells.now.items place RING_CELLS }
        ensures { result ≡ ring_at cells.now.items place }
    {
        Ring {
            elements: bytes_at(cells, place),
            head: byte_at(cells, place + FIFO_BYTES),
            number: byte_at(cells, place + FIFO_BYTES + 1),
        }
    }
}

// Returns `bytes` followed by zeros, sixteen in all.
fn padded(bytes: &[u8]) -> [u8; FIFO_BYTES]
    ensures { result ≡ padded_of bytes.now }
{
    let mut sixteen = [0; FIFO_BYTES];
    for place in 0..FIFO_BYTES {
        sixteen[place] = byte_or_zero(bytes, place);
    }
    sixteen
}

// Returns the byte at index `place`, or 0 after the last byte.
fn byte_or_zero(bytes: &[u8], place: usize) -> u8
    ensures { result ≡ byte_of bytes.now place }
{
    match bytes.get(place) {
        Some(byte) => *byte,
        None => 0,
    }
}

// Returns sixteen bytes from the cells at index `place` on.
fn bytes_at(cells: &DevCells, place: usize) -> [u8; FIFO_BYTES]
    requires small { place ≤ MOST_CELLS }
    requires within { place + FIFO_BYTES ≤ length cells.now.items }
    requires in_range { AreBytesIn cells.now.items place FIFO_BYTES }
    ensures { result ≡ bytes_at_of cells.now.items place }
{
    let mut bytes = [0; FIFO_BYTES];
    for i in 0..FIFO_BYTES {
        bytes[i] = byte_at(cells, place + i);
    }
    bytes
}
