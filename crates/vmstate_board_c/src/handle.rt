// The handle that C keeps: a board or none.
ghost use Rattle.std.specs.Prelude.{◌≡◌, Option, Some, None, MatchOption};
ghost use Rattle.std.specs.Option.{is_some};

use crate::held::Held;
use crate::parts::Parts;
use crate::seal::Seal;
use std::alloc::Global;
use std::mem;

/// A handle for C programs, which owns a board or none. If its bytes are all 0 it owns none.
#[repr(C)]
#[derive(Drop)]
pub struct Handle {
    seal: Seal,
    is_made: bool,
    ghost tie: { is_some seal.held ≡ is_made },
}

impl Handle {
    /// Creates a handle that owns no board.
    pub(crate) fn none(alloc: Global) -> Handle
        ensures { result.seal.held ≡ None }
    {
        Handle {
            seal: Seal::none(alloc),
            is_made: false,
        }
    }

    /// Creates a handle that owns `held`.
    pub(crate) fn of(held: Box<Held>) -> Handle
        ensures { result.seal.held ≡ Some held.value }
    {
        Handle {
            seal: Seal::of_parts(Parts::of(held)),
            is_made: true,
        }
    }

    /// Returns the board, if there is one.
    pub(crate) fn into_box(self) -> Option<Box<Held>>
        ensures { MatchOption result (self.seal.held ≡ None) (λ held. self.seal.held ≡ Some held.value) }
    {
        let Handle { seal, is_made } = self;
        if is_made {
            Some(seal.into_parts().into_box())
        } else {
            None
        }
    }

    /// Returns the board, if there is one, and leaves a handle that owns none.
    pub(crate) fn take(&mut self, alloc: Global) -> Option<Box<Held>>
        ensures taken { MatchOption result (self.old.seal.held ≡ None)
            (λ held. self.old.seal.held ≡ Some held.value) }
        ensures none { self.new.seal.held ≡ None }
    {
        if !self.is_made {
            return None;
        }
        let seal = mem::replace(&mut self.seal, Seal::none(alloc));
        self.is_made = false;
        Some(seal.into_parts().into_box())
    }

    /// Keeps `held`.
    #[inline(always)]
    pub(crate) fn put(&mut self, held: Box<Held>)
        ensures { self.new.seal.held ≡ Some held.value }
    {
        self.seal = Seal::of_parts(Parts::of(held));
        self.is_made = true;
    }
}
