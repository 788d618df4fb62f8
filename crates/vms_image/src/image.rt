// The state of a device.
ghost use Rattle.std.specs.Prelude.{◌≡◌, ◌+◌, ◌*◌, ◌<◌, ◌≤◌, ◌↔◌, IsTrue, Option, None, pos, length, get_or, slice_set, replicate, take, drop, IfOk};
ghost use Rattle.vms_desc.specs.Calls.{DescribesDevice};
ghost use Rattle.vms_image.specs.Calls.{CanReset, IsNumberOf, IsOf, default_in};
ghost use Rattle.vms_kinds.specs.Codes.{InRange, code, width};
ghost use Rattle.vms_kinds.specs.declared.Kind.TheVariants.{U8};
ghost use Rattle.vms_spots.specs.Spots.{raw_of, no_spot, codes_of, AreOne, put_from, values_of};

use std::alloc::{AllocError, Global};
use std::marker::Model;
use vms_desc::{Cells, DescSet};
use vms_io::NoMemory;
use vms_kinds::Kind;
use vms_spots::{Buffer, Spot};

/// The state of one device: the version of its section, the version of each subsection that came,
/// and the numbers of its cells with their kinds.
///
/// The numbers are in one buffer of bytes.
#[derive(Drop)]
pub struct Image {
    version: u32,
    came: Vec<Option<u32>>,
    cells: Buffer,
}

impl Model for Image {
    ghost use Rattle.vms_image.specs.Typed as images;

    ghost Value = { images.Typed };

    ghost view = { λ a.
        record {
          version = a.version;
          came = a.came.items;
          numbers = a.cells.numbers;
          kinds = a.cells.kinds;
        } };
}

impl Image {
    /// Returns the default image of device `device` of `set`: at the set's version, with no
    /// subsection, and with each cell at its default.
    ///
    /// # Errors
    ///
    /// - [`NoMemory`]: out of memory.
    ///
    /// # Requires
    ///
    /// The set has the device.
    pub fn new(alloc: Global, set: &DescSet, device: u32) -> Result<Image, NoMemory>
        requires { DescribesDevice set.now device }
        ensures { IfOk result (λ image. image ≡ default_in set.now device) }
    {
        let described = set.device(device);
        Ok(Image {
            version: described.desc.version,
            came: none_came(alloc, described.subs.as_slice().len())?,
            cells: set.defaults(device).copy(alloc)?,
        })
    }

    /// Makes this the default image of device `device` of `set`, as [`new`](Self::new) returns it.
    ///
    /// # Requires
    ///
    /// The set has the device, and this is an image of it.
    pub fn reset(&mut self, set: &DescSet, device: u32)
        requires { CanReset set.now device self.old }
        ensures { self.new ≡ default_in set.now device }
    {
        self.version = set.device(device).desc.version;
        clear(&mut self.came);
        self.cells.copy_from(set.defaults(device));
    }

    /// Returns whether this is an image of device `device` of `set`: it has cells of the device's
    /// kinds, and an entry for each of its subsections.
    ///
    /// # Requires
    ///
    /// The set has the device.
    pub fn is_of(&self, set: &DescSet, device: u32) -> bool
        requires { DescribesDevice set.now device }
        ensures { IsTrue result ↔ IsOf set.now device self.now }
    {
        self.came.len() == set.device(device).subs.as_slice().len()
            && self.cells.spots() == set.spots(device)
    }

    /// Returns the number of cells.
    pub fn len(&self) -> u32
        ensures { result ≡ length self.now.numbers }
    {
        self.cells.len()
    }

    /// Returns the number of cell `cell`, which is in the range of the cell's kind.
    ///
    /// # Requires
    ///
    /// There is such a cell.
    pub fn get(&self, cell: u32) -> i128
        requires { cell < length self.now.numbers }
        ensures { IsNumberOf self.now cell result }
    {
        self.cells.get(cell)
    }

    /// Returns the code of the number of cell `cell`: its bytes in [`raw`](Self::raw), big-endian.
    ///
    /// # Requires
    ///
    /// There is such a cell.
    pub fn code(&self, cell: u32) -> &[u8]
        requires { cell < length self.now.numbers }
        ensures { result.now ≡ code (get_or self.now.kinds cell U8)
            (get_or self.now.numbers cell (pos 0)) }
    {
        self.cells.code(cell)
    }

    /// Returns the codes of the numbers of `count` consecutive cells from `first` on, one after the
    /// other.
    ///
    /// # Requires
    ///
    /// There are these cells, and all are of kind `kind`.
    pub fn codes(&self, first: u32, count: u32, kind: Kind) -> &[u8]
        requires room { first + count ≤ length self.now.numbers }
        requires one { AreOne self.now.kinds first count kind }
        ensures { result.now ≡ codes_of kind (take count (drop first self.now.numbers)) }
    {
        self.cells.codes(first, count, kind)
    }

    /// Stores the numbers with these `codes` in `count` consecutive cells from `first` on.
    /// Everything else is unchanged.
    ///
    /// # Requires
    ///
    /// There are these cells, and all are of kind `kind`, which isn't `Bool`: so each code is a
    /// number's. `codes` has the bytes of `count` codes.
    pub fn put_codes(&mut self, first: u32, count: u32, kind: Kind, codes: &[u8])
        requires room { first + count ≤ length self.old.numbers }
        requires one { AreOne self.old.kinds first count kind }
        requires number { kind ≡ Kind.Bool → ⊥ }
        requires long { length codes.now ≡ count * width kind }
        ensures { self.new ≡ record self.old {
          numbers = put_from self.old.numbers first (values_of kind count codes.now);
        } }
    {
        self.cells.put_codes(first, count, kind, codes);
    }

    /// Returns whether `value` is in the range of the kind of cell `cell`.
    ///
    /// # Requires
    ///
    /// There is such a cell.
    pub fn fits(&self, cell: u32, value: i128) -> bool
        requires { cell < length self.now.numbers }
        ensures { IsTrue result ↔ InRange (get_or self.now.kinds cell U8) value }
    {
        kind_at(self.cells.spots(), cell).in_range(value)
    }

    /// Sets the number of cell `cell` to `value`. Everything else is unchanged.
    ///
    /// # Requires
    ///
    /// There is such a cell, and `value` is in the range of its kind.
    pub fn set(&mut self, cell: u32, value: i128)
        requires cell { cell < length self.old.numbers }
        requires range { InRange (get_or self.old.kinds cell U8) value }
        ensures { self.new ≡ record self.old { numbers = slice_set self.old.numbers cell value } }
    {
        self.cells.set(cell, value);
    }

    /// Returns the bytes of all cells: the code of each number at its spot (`DescSet::spot`), and 0
    /// between the spots.
    pub fn raw(&self) -> &[u8]
        ensures { result.now ≡ raw_of self.now.kinds self.now.numbers }
    {
        self.cells.raw()
    }

    /// Returns the version of the section.
    pub fn version(&self) -> u32
        ensures { result ≡ self.now.version }
    {
        self.version
    }

    /// Sets the version of the section to `version`. Everything else is unchanged.
    pub fn set_version(&mut self, version: u32)
        ensures { self.new ≡ record self.old { version = version } }
    {
        self.version = version;
    }

    /// Returns the version of subsection `sub`, or `None` exactly if it hasn't come.
    ///
    /// # Requires
    ///
    /// There is such a subsection.
    pub fn came(&self, sub: u32) -> Option<u32>
        requires { sub < length self.now.came }
        ensures { result ≡ get_or self.now.came sub None }
    {
        self.came[sub as usize]
    }

    /// Marks subsection `sub` as come at `version`, or as not come. Everything else is unchanged.
    ///
    /// # Requires
    ///
    /// There is such a subsection.
    pub fn mark(&mut self, sub: u32, version: Option<u32>)
        requires { sub < length self.old.came }
        ensures { self.new ≡ record self.old { came = slice_set self.old.came sub version } }
    {
        self.came[sub as usize] = version;
    }
}

impl Cells for Image {
    ghost numbers = { λ image. image.numbers };

    fn number(&self, cell: u32) -> i128 {
        self.get(cell)
    }
}

fn kind_at(spots: &[Spot], cell: u32) -> Kind
    requires { cell < length spots.now }
    ensures { result ≡ (get_or spots.now cell no_spot).kind }
{
    spots[cell as usize].kind
}

// Returns the entries of `subs` subsections, of which none has come.
fn none_came(alloc: Global, subs: usize) -> Result<Vec<Option<u32>>, AllocError>
    ensures { IfOk result (λ came. came.items ≡ replicate subs None) }
{
    let mut came = Vec::with_capacity(alloc, subs)?;
    for _ in 0..subs {
        came.push(None)?;
    }
    Ok(came)
}

// Marks each subsection as not come.
fn clear(came: &mut Vec<Option<u32>>)
    ensures { came.new.items ≡ replicate (length came.old.items) None }
{
    for sub in 0..came.len() {
        came[sub] = None;
    }
}
