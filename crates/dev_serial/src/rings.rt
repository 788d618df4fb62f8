// A port's cells with its FIFOs in counted arrays, as sets without rings have them.
ghost use Rattle.std.specs.Prelude.{◌≡◌, ◌≤◌, length};
ghost use Rattle.dev_serial.specs.Cells.{IsPortCells};
ghost use Rattle.dev_serial.specs.Recast.{array_for, is_in_ring as is_in_ring_of, recast_cells, ring_left};
ghost use Rattle.dev_serial.specs.declared.stored.TheConstants.{PORT_CELLS};

use crate::numbers::PortNumbers;
use crate::stored::{Counted, Ring};
use dev_base::NEWEST;
use vms_kinds::DevCells;

/// Returns `cells` of the newest set with the bytes of each ring in the counted array.
///
/// A direction whose bytes are in its ring alone gets the same bytes, in order, in its counted
/// array, and its ring becomes empty. All else stays.
///
/// # Requires
///
/// `cells` are a port's cells in the newest set.
pub fn recast(cells: &DevCells) -> DevCells
    requires { IsPortCells cells.now.items }
    ensures cells { result.items ≡ recast_cells cells.now.items }
    ensures count { length result.items ≤ PORT_CELLS }
{
    let mut port = PortNumbers::of_cells(cells);
    let rx = Direction::recast(port.rx, port.rx_ring);
    let tx = Direction::recast(port.tx, port.tx_ring);
    port.rx = rx.array;
    port.rx_ring = rx.ring;
    port.tx = tx.array;
    port.tx_ring = tx.ring;
    port.cells(NEWEST)
}

// One direction's bytes, as an array and as a ring.
#[derive(Clone, Copy)]
struct Direction {
    array: Counted,
    ring: Ring,
}

impl Direction {
    fn recast(array: Counted, ring: Ring) -> Direction
        ensures array { result.array ≡ array_for array ring }
        ensures ring { result.ring ≡ ring_left array ring }
    {
        if !is_in_ring(&array, &ring) {
            return Direction { array, ring };
        }
        Direction {
            array: Counted::of(&ring.list()),
            ring: Ring::of(&[]),
        }
    }
}

// Reports whether the ring is valid and holds bytes while the array holds none.
fn is_in_ring(array: &Counted, ring: &Ring) -> bool
    ensures { result ≡ is_in_ring_of array.now ring.now }
{
    ring.number > 0 && array.count == 0 && ring.holds()
}
