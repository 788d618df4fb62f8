// A source over bytes that it borrows.
ghost use Rattle.std.specs.Prelude.{◌≡◌, ◌^◌, ◌<◌, ◌≤◌, length};
ghost use Rattle.vms_kinds.specs.Bytes.{IsBytes};

use vms_io::{Failed, Source};

/// A source of borrowed bytes in memory. No read fails.
#[derive(Drop)]
pub struct Lent<'a> {
    bytes: &'a [u8],
    at: usize,
    given: u64,
    ghost within: { at ≤ length bytes.now },
    ghost octets: { IsBytes bytes.now },
    ghost counted: { given < 2 ^ 64 },
}

impl<'a> Lent<'a> {
    ghost use Rattle.vms_board_streams.specs.Memory.{rest};

    /// Returns a source of `bytes`.
    pub fn new(bytes: &'a [u8]) -> Self
        ensures left { rest result ≡ bytes.now }
        ensures given { ⟦<Lent<'a> as Source>⟧.given result ≡ 0 }
    {
        Lent {
            bytes,
            at: 0,
            given: 0,
        }
    }
}

impl Source for Lent<'_> {
    ghost use Rattle.std.specs.Prelude.{Some, refl, true};
    ghost use Rattle.vms_io.specs.Memory.{bytes_left};
    ghost use Rattle.vms_board_streams.specs.Memory.{rest};

    ghost left = { λ s. Some (rest s) };

    ghost given = { λ s. s.given };

    ghost faults = { λ s. 0 };

    ghost promise = { λ s. true };

    ghost counted = { λ s. s.counted };

    ghost promised = { λ s h. refl };

    ghost octets = { λ s. bytes_left s.bytes.now s.at s.octets };

    /// Copies the next bytes into the front of `buf` and returns their number.
    ///
    /// # Errors
    ///
    /// None: no read fails.
    fn read(&mut self, buf: &mut [u8]) -> Result<usize, Failed> {
        let rest = self.bytes.len() - self.at;
        let count = buf.len().min(rest);
        copy(&mut buf[..count], &self.bytes[self.at..self.at + count]);
        self.at += count;
        self.given = self.given.saturating_add(count as u64);
        Ok(count)
    }
}

// Copies `from`, a single byte without a call.
#[inline(always)]
#[tactic(auto, using(crate::proofs::FamilyBytes::one_copied))]
fn copy(to: &mut [u8], from: &[u8])
    requires { length to.old ≡ length from.now }
    ensures { to.new ≡ from.now }
{
    if from.len() == 1 {
        to[0] = from[0];
    } else {
        to.copy_from_slice(from);
    }
}
