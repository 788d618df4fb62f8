// The cells that the chip is saved in.
ghost use Rattle.std.specs.Prelude.{◌≡◌, ◌≤◌, length};
ghost use Rattle.dev_base.specs.declared.limits.TheConstants.{NEWEST};
ghost use Rattle.dev_pit.specs.Cells.{channel_cells, status_cells, three_cells, channel_at, IsChannelAt};

use crate::channel::Channel;
use dev_base::{append, byte_at, flag_at, moment_at, word_at};
use vms_fields::pit::{
    BCD, CELLS, CHANNEL_CELLS, COUNT, LATCH, LATCHED, LOAD_TIME, LOADED, MODE, READ_HIGH, RW,
    STATUS, STATUS_LATCHED, STATUS_SINCE, WLOW, WLOW_HELD,
};
use vms_kinds::DevCells;

// Returns the cells for the statuses of three channels: the three flags, then the three bytes.
#[tactic(auto, unfolding(crate::specs::Cells::status_cells))]
fn statuses_of(first: &Channel, second: &Channel, third: &Channel) -> [i128; 6]
    ensures { result ≡ status_cells NEWEST first.now second.now third.now }
{
    [
        i128::from(first.status_latched),
        i128::from(second.status_latched),
        i128::from(third.status_latched),
        i128::from(first.status),
        i128::from(second.status),
        i128::from(third.status),
    ]
}

impl Channel {
    /// Returns channel `k`, 0 to 2, from the cells of a chip in the newest set.
    ///
    /// # Requires
    ///
    /// `k` is below 3, `cells` has the length of the newest set, and the channel's cells fit their
    /// kinds.
    #[tactic(auto, unfolding(crate::specs::Cells::channel_at))]
    pub fn at(cells: &DevCells, k: usize) -> Channel
        requires { IsChannelAt k cells.now.items }
        ensures { result ≡ channel_at k cells.now.items }
    {
        let first = CHANNEL_CELLS * k;
        Channel {
            count: word_at(cells, first + COUNT),
            mode: byte_at(cells, first + MODE),
            rw: byte_at(cells, first + RW),
            bcd: flag_at(cells, first + BCD),
            loaded: flag_at(cells, first + LOADED),
            load_time: moment_at(cells, first + LOAD_TIME),
            read_high: flag_at(cells, first + READ_HIGH),
            wlow_held: flag_at(cells, first + WLOW_HELD),
            wlow: byte_at(cells, first + WLOW),
            latched: flag_at(cells, first + LATCHED),
            latch: word_at(cells, first + LATCH),
            status_latched: flag_at(cells, STATUS_LATCHED + k),
            status: byte_at(cells, STATUS + k),
        }
    }

    /// Returns the cells of the channel, without those of its status.
    #[tactic(auto, unfolding(crate::specs::Cells::channel_cells))]
    pub fn cells(&self) -> [i128; CHANNEL_CELLS]
        ensures { result ≡ channel_cells self.now }
    {
        [
            i128::from(self.count),
            i128::from(self.mode),
            i128::from(self.rw),
            i128::from(self.bcd),
            i128::from(self.loaded),
            i128::from(self.load_time),
            i128::from(self.read_high),
            i128::from(self.wlow_held),
            i128::from(self.wlow),
            i128::from(self.latched),
            i128::from(self.latch),
        ]
    }

    /// Returns the cells of three channels in set `set`, with their statuses if `set` has cells for
    /// them.
    #[tactic(auto, using(crate::proofs::SavedLaws::three_cells_fit), unfolding(crate::specs::Cells::three_cells, crate::specs::Cells::status_cells))]
    pub fn cells_of(set: u8, first: &Channel, second: &Channel, third: &Channel) -> DevCells
        ensures cells { result.items ≡ three_cells set first.now second.now third.now }
        ensures count { length result.items ≤ CELLS }
    {
        let mut cells = DevCells::new();
        append(&mut cells, &first.cells());
        append(&mut cells, &second.cells());
        append(&mut cells, &third.cells());
        if set >= STATUS_SINCE {
            append(&mut cells, &statuses_of(first, second, third));
        }
        cells
    }
}
