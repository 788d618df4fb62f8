// A well-formed description set.
ghost use Rattle.vms_kinds.specs.declared.TheConstants.{NEWEST_CLOCK_SET, NEWEST_SET};
ghost use Rattle.std.specs.Prelude.{true, ◌≤◌, ◌==◌, ◌&&◌, ◌≡◌, length, IfOk, map};
ghost use Rattle.std.specs.Str.{bytes_eq};
ghost use Rattle.vms_spec.specs.Lookup.{find_device};
ghost use Rattle.vms_spec.specs.Heads.{FitsHeads};
ghost use Rattle.vms_desc.specs.Formed.{clock_set, is_well_formed, shipped_set};
ghost use Rattle.vms_desc.specs.Numbers.{sizes_of};
ghost use Rattle.vms_desc.specs.Scopes.{IsParent};
ghost use Rattle.vms_desc.specs.Spots.{form_numbers};
ghost use Rattle.vms_desc.specs.Tables.{AreTables, AreDeviceTables};
ghost use Rattle.vms_parts.specs.Sizes.{in_u32};
ghost use Rattle.vms_parts.specs.Views.{set_of, formula, desc_of, device_of, layout_of};

use crate::defaults::device_defaults;
use crate::eval::{Scope, holds};
use crate::table::{Table, device_tables, struct_tables};
use crate::{Cells, Desc, Device, Listed, Part, Parts, Test};
use std::alloc::{AllocError, Global};
use vms_io::NoMemory;
use vms_parts::{Measure, struct_sizes};
use vms_shipped::{clock_parts, shipped_parts};
use vms_spots::Buffer;

/// A well-formed description set, with the layout of each device's cells.
#[derive(Drop)]
pub struct DescSet {
    parts: Parts,
    // The numbers of each device's cells at their defaults.
    defaults: Listed<Buffer>,
    // The number of cells of each structure, at most 2^32 - 1.
    pub(crate) sizes: Listed<u32>,
    // The tables of each structure, and of each device with its subsections.
    struct_tables: Listed<Table>,
    device_tables: Listed<Listed<Table>>,
    ghost well_formed: { is_well_formed (set_of parts) ≡ true },
    ghost heads: { FitsHeads (set_of parts) },
    ghost few: { length parts.devices ≤ 64 },
    ghost at_default: { defaults ≡ map form_numbers (layout_of (set_of parts)) },
    ghost sized: { sizes ≡ sizes_of (set_of parts) },
    ghost structs_tabled: { AreTables (sizes_of (set_of parts))
        (map (λ d. d.fields) (set_of parts).structs) struct_tables },
    ghost devices_tabled: { AreDeviceTables (sizes_of (set_of parts))
        (set_of parts).devices device_tables },
}

impl DescSet {
    ghost use Rattle.vms_desc.specs.Calls.{AreDefaults, AreTablesOf, CanEval, DescribesDevice, DescribesPart, IsTableOf};
    ghost use Rattle.vms_desc.specs.Calls.{desc_in, device_cells_in, device_in, own_count_in, truth_in};
    ghost use Rattle.vms_desc.specs.Described.{described};

    /// Returns the shipped set `@s` for number `s`.
    ///
    /// # Errors
    ///
    /// - [`NoMemory`]: out of memory.
    ///
    /// # Requires
    ///
    /// `s` is at most `NEWEST_SET`.
    pub fn shipped(alloc: Global, s: u8) -> Result<DescSet, NoMemory>
        requires { s ≤ NEWEST_SET }
        ensures { IfOk result (λ set. described set ≡ shipped_set s) }
    {
        Ok(Self::assemble(alloc, shipped_parts(alloc, s)?)?)
    }

    /// Returns the shipped set `@cN` for number `c`, 1 or 2. For 0 it is that of 1.
    ///
    /// # Errors
    ///
    /// - [`NoMemory`]: out of memory.
    ///
    /// # Requires
    ///
    /// `c` is at most 2.
    pub fn clock(alloc: Global, c: u8) -> Result<DescSet, NoMemory>
        requires { c ≤ NEWEST_CLOCK_SET }
        ensures { IfOk result (λ set. described set ≡ clock_set c) }
    {
        Ok(Self::assemble(alloc, clock_parts(alloc, c)?)?)
    }

    // Returns the set of well-formed parts, laid out.
    pub(crate) fn assemble(alloc: Global, parts: Parts) -> Result<DescSet, AllocError>
        requires { is_well_formed (set_of parts) ≡ true }
        ensures { IfOk result (λ set. described set ≡ set_of parts) }
    {
        let sizes = struct_sizes(alloc, Measure::Cells, parts.structs.as_slice())?;
        let structs = struct_tables(alloc, &sizes, parts.structs.as_slice())?;
        let devices = device_tables(alloc, &sizes, parts.devices.as_slice())?;
        let defaults = device_defaults(alloc, &sizes, &parts)?;
        Ok(DescSet {
            parts,
            defaults: Listed::new(defaults),
            sizes: Listed::new(sizes),
            struct_tables: Listed::new(structs),
            device_tables: Listed::new(devices),
        })
    }

    /// Returns the parts of the set.
    pub fn parts(&self) -> &Parts
        ensures { set_of result.now ≡ described self.now }
    {
        &self.parts
    }

    /// Returns the number of the device with this `name` and `instance` id, or `None` exactly if
    /// there is none.
    pub fn find(&self, name: &[u8], instance: u32) -> Option<u32>
        ensures { result ≡ find_device 0 (described self.now).devices name.now instance }
    {
        find_from(self.parts.devices.as_slice(), name, instance)
    }

    /// Returns device `device`.
    ///
    /// # Requires
    ///
    /// The set has the device.
    pub fn device(&self, device: u32) -> &Device
        requires { DescribesDevice self.now device }
        ensures { device_of result.now ≡ device_in self.now device }
    {
        &self.parts.devices.as_slice()[device as usize]
    }

    /// Returns the number of cells of device `device`, those of its subsections included.
    ///
    /// # Requires
    ///
    /// The set has the device.
    pub fn cells(&self, device: u32) -> u32
        requires { DescribesDevice self.now device }
        ensures { result ≡ length (device_cells_in self.now device) }
    {
        self.defaults(device).len()
    }

    /// Returns the defaults of the cells of device `device`, in order. A cell holds its default if
    /// it isn't in the bytes.
    ///
    /// # Requires
    ///
    /// The set has the device.
    pub fn defaults(&self, device: u32) -> &Buffer
        requires { DescribesDevice self.now device }
        ensures { AreDefaults self.now device result.now }
    {
        &self.defaults.as_slice()[device as usize]
    }

    /// Returns the description of `part`.
    ///
    /// # Requires
    ///
    /// The set has `part`.
    #[inline(always)]
    pub fn desc(&self, part: Part) -> &Desc
        requires { DescribesPart self.now part }
        ensures { desc_of result.now ≡ desc_in self.now part }
    {
        match part {
            Part::Set => unreachable!(),
            Part::Struct(number) => &self.parts.structs.as_slice()[number as usize],
            Part::Device(number) => &self.device(number).desc,
            Part::Sub(device, number) => {
                &self.device(device).subs.as_slice()[number as usize].desc
            }
        }
    }

    /// Returns the number of cells of the fields of part `desc`, without those of a device's
    /// subsections. For a structure that no device uses it is at most 2^32 - 1.
    ///
    /// # Requires
    ///
    /// The set has the part.
    pub fn cells_of(&self, desc: Part) -> u32
        requires { DescribesPart self.now desc }
        ensures { result ≡ in_u32 (own_count_in self.now desc) }
    {
        let starts = self.table(desc).starts.as_slice();
        starts[starts.len() - 1]
    }

    // Returns the table of a part.
    #[inline(always)]
    pub(crate) fn table(&self, part: Part) -> &Table
        requires { DescribesPart self.now part }
        ensures { IsTableOf self.now part result.now }
    {
        match part {
            Part::Set => unreachable!(),
            Part::Struct(number) => &self.struct_tables.as_slice()[number as usize],
            Part::Device(number) => &self.tables_of(number)[0],
            Part::Sub(device, number) => &self.tables_of(device)[number as usize + 1],
        }
    }

    // Returns the tables of a device and its subsections.
    fn tables_of(&self, device: u32) -> &[Table]
        requires { DescribesDevice self.now device }
        ensures { AreTablesOf self.now device result.now }
    {
        self.device_tables.as_slice()[device as usize].as_slice()
    }

    /// Returns the number of cells of each structure. For one that no device uses it is at most
    /// 2^32 - 1.
    pub fn sizes(&self) -> &[u32]
        ensures { result.now ≡ sizes_of (described self.now) }
    {
        self.sizes.as_slice()
    }

    // Returns the scope of the device that a test of the part may name, if it is a subsection's.
    fn parent(&self, part: Part) -> Option<Scope<'_>>
        requires { DescribesPart self.now part }
        ensures { IsParent (described self.now) part result }
    {
        match part {
            Part::Sub(device, _) => Some(self.scope(Part::Device(device), 0)),
            _ => None,
        }
    }

    /// Returns whether `test` of part `desc` holds at `version`, by the numbers of `cells`.
    ///
    /// `base` is the first cell of the part, or of one element of a structure. A test of a
    /// subsection may name fields of the subsection and of its device.
    ///
    /// # Requires
    ///
    /// The set has the part. The test names only single numbers of the part, and for a subsection
    /// of its device. `cells` has all their cells, and at most [`MOST_ITEMS`](vms_spec::MOST_ITEMS)
    /// numbers.
    pub fn eval<C: Cells>(
        &self,
        desc: Part,
        base: u32,
        test: &Test,
        version: u32,
        cells: &C,
    ) -> bool
        requires { CanEval self.now desc base (formula test.now) (C.numbers cells.now) }
        ensures { let t = formula test.now in
            result ≡ truth_in self.now desc base t version (C.numbers cells.now) }
    {
        let own = self.scope(desc, base);
        let parent = self.parent(desc);
        holds(test, version, &own, parent.as_ref(), cells)
    }
}

fn find_from(devices: &[Device], name: &[u8], instance: u32) -> Option<u32>
    requires { length devices.now ≤ 64 }
    ensures { result ≡ find_device 0 (map device_of devices.now) name.now instance }
{
    for (i, device) in devices.iter().enumerate() {
        if is_named(device, name, instance) {
            return Some(i as u32);
        }
    }
    None
}

fn is_named(device: &Device, name: &[u8], instance: u32) -> bool
    ensures { result ≡ (bytes_eq device.now.desc.name name.now && device.now.instance == instance) }
{
    device.desc.name.as_bytes() == name && device.instance == instance
}
