// Compares a stream with what is required, piece by piece.
ghost use Rattle.std.specs.Prelude.{◌≡◌, ◌∷◌, [], Bool, List, true, OnOk, IfErr};
ghost use Rattle.std.specs.List.{flat_map, list_all};
ghost use Rattle.vms_analyze.specs.Wanted.{Want, Bytes, Any, Number, Line, number_line, element_want};
ghost use Rattle.vms_analyze.specs.Typed.{told_of, element_wants, want_of};
ghost use Rattle.vms_analyze.specs.declared.walk.Stop.TheVariants as stops;
ghost use Rattle.vms_analyze.specs.Walking.{IsInside, Goes, Prints, Walks};

use crate::told::Element;
use itoa::Buffer;
use std::alloc::AllocError;
use vms_kinds::Kind;

/// A stream, the offset up to which it is as required, the id of the open section, and the lines
/// that are printed.
#[derive(Drop)]
pub(crate) struct Walk<'a> {
    pub(crate) input: &'a [u8],
    pub(crate) place: usize,
    pub(crate) id: u32,
    pub(crate) text: Vec<u8>,
}

/// Why a walk ends early.
#[derive(Clone, Copy, Drop)]
pub(crate) enum Stop {
    /// What is at the offset isn't as required.
    Differs,
    /// Out of memory.
    NoMemory,
}

impl From<AllocError> for Stop {
    ghost use Rattle.vms_analyze.specs.declared.walk.Stop.TheVariants.{NoMemory};

    ghost from_gives = { λ _ e. e ≡ NoMemory };

    fn from(_: AllocError) -> Self {
        Stop::NoMemory
    }
}

/// What is sought in a stream.
pub(crate) trait Sought {
    ghost wants: { Self → List Want };

    // Whether it has the shape of what was read.
    ghost is_good: { Self → Bool };

    fn seek(&self, walk: &mut Walk) -> Result<(), Stop>
        requires inside { IsInside walk.old }
        requires good { is_good self.now ≡ true }
        ensures { Walks (wants self.now) walk.old walk.new result };
}

impl Sought for Element<'_> {
    ghost wants = { want_of };

    ghost is_good = { λ _. true };

    fn seek(&self, walk: &mut Walk) -> Result<(), Stop> {
        walk.element(self)
    }
}

impl Walk<'_> {
    /// Reads `items` one after the other.
    pub(crate) fn each<T: Sought>(&mut self, items: &[T]) -> Result<(), Stop>
        requires inside { IsInside self.old }
        requires good { list_all T.is_good items.now ≡ true }
        ensures { Walks (flat_map T.wants items.now) self.old self.new result }
    {
        for item in items {
            if let Err(stop) = item.seek(self) {
                return Err(stop);
            }
        }
        Ok(())
    }

    /// Reads `n` bytes of any content.
    pub(crate) fn any(&mut self, n: usize) -> Result<(), Stop>
        requires { IsInside self.old }
        ensures { Walks (Any n ∷ []) self.old self.new result }
    {
        if self.input.len() - self.place < n {
            return Err(Stop::Differs);
        }
        self.place += n;
        Ok(())
    }

    /// Reads exactly `bytes`.
    pub(crate) fn bytes(&mut self, bytes: &[u8]) -> Result<(), Stop>
        requires { IsInside self.old }
        ensures { Walks (Bytes bytes.now ∷ []) self.old self.new result }
    {
        if self.input.len() - self.place < bytes.len() {
            return Err(Stop::Differs);
        }
        let end = self.place + bytes.len();
        if &self.input[self.place..end] != bytes {
            return Err(Stop::Differs);
        }
        self.place = end;
        Ok(())
    }

    /// Reads a number, and prints it under its path.
    pub(crate) fn number(&mut self, path: &str, kind: Kind) -> Result<(), Stop>
        requires { IsInside self.old }
        ensures { Walks (Number path.now kind ∷ []) self.old self.new result }
    {
        let width = kind.width();
        if self.input.len() - self.place < width {
            return Err(Stop::Differs);
        }
        let end = self.place + width;
        match kind.take(&self.input[self.place..end]) {
            Some(value) => {
                self.place = end;
                self.print(path, value)?;
                Ok(())
            }
            None => Err(Stop::Differs),
        }
    }

    /// Reads an element.
    pub(crate) fn element(&mut self, element: &Element) -> Result<(), Stop>
        requires { IsInside self.old }
        ensures { Walks (element_want (told_of element.now) ∷ []) self.old self.new result }
    {
        match *element {
            Element::Sent { path, kind } => self.number(path, kind),
            Element::Kept { path, value, .. } => self.kept(path, value),
            Element::Fixed { bytes, .. } => self.any(bytes),
            Element::Skipped { bytes, .. } => self.any(bytes),
        }
    }

    /// Reads elements one after the other.
    pub(crate) fn elements(&mut self, elements: &[Element]) -> Result<(), Stop>
        requires { IsInside self.old }
        ensures { Walks (element_wants elements.now) self.old self.new result }
    {
        self.each(elements)
    }

    // Prints a number that the description gives.
    fn kept(&mut self, path: &str, value: i128) -> Result<(), Stop>
        requires { IsInside self.old }
        ensures ok { OnOk result (Goes (Line (number_line path.now value) ∷ []) self.old self.new) }
        ensures err { IfErr result (λ e. e ≡ stops.NoMemory) }
    {
        self.print(path, value)?;
        Ok(())
    }

    // Prints the line of a number.
    fn print(&mut self, path: &str, value: i128) -> Result<(), Stop>
        ensures ok { OnOk result (Prints self.old self.new (number_line path.now value)) }
        ensures err { IfErr result (λ e. e ≡ stops.NoMemory) }
    {
        let mut digits = Buffer::new();
        self.text.extend_from_slice(path.as_bytes())?;
        self.text.extend_from_slice(b" = ")?;
        self.text
            .extend_from_slice(digits.format(value).as_bytes())?;
        self.text.extend_from_slice(b"\n")?;
        Ok(())
    }
}
