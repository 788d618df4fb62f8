// What a walk over a set needs to know about it.
ghost use Rattle.vms_spec.specs.declared.TheConstants.{MOST_ITEMS};
ghost use Rattle.std.specs.Prelude.{◌≡◌, ◌≤◌, ◌+◌, length};
ghost use Rattle.vms_spec.specs.Layout.{counted};
ghost use Rattle.vms_spec.specs.declared.Part.TheVariants as parts;
ghost use Rattle.vms_parts.specs.Capacities.{least_of};
ghost use Rattle.vms_parts.specs.Sizes.{in_u32};
ghost use Rattle.vms_parts.specs.Views.{field_of, formula};

use crate::eval::{Scope, all_hold, holds, number_at};
use crate::{Cells, Count, DescSet, Field, Part, Test};
use vms_kinds::Item;
use vms_parts::{Measure, capacity, item_size};

/// The fields of a part with their tables, looked up once for all that a walk asks about them.
#[derive(Clone, Copy, Drop)]
pub struct PartFields<'a> {
    fields: &'a [Field],
    starts: &'a [u32],
    mosts: &'a [Option<u32>],
}

impl<'a> PartFields<'a> {
    /// Returns the fields, in order.
    #[inline(always)]
    pub fn as_slice(&self) -> &'a [Field]
        ensures { result.now ≡ self.now.fields.now }
    {
        self.fields
    }
}

impl DescSet {
    ghost use Rattle.vms_desc.specs.Calls.{AreFieldsOf, CanAsk, CanAskField, CanAskOf, CanTest, DescribesDevice, DescribesField, DescribesPart, DescribesSub, IsScopeOf};
    ghost use Rattle.vms_desc.specs.Calls.{count_in, desc_in, device_in, elements_in, field_size_in, field_start_in, first_cell_in, is_needed_in};
    ghost use Rattle.vms_desc.specs.Calls.{is_present_in, is_there_in, item_size_in, own_count_in, own_truth_in, rules_hold_in};

    /// Returns the first cell of `part` among the cells of its device: 0, or the first cell after
    /// those that precede a subsection's.
    ///
    /// # Requires
    ///
    /// The set has `part`.
    pub fn first_cell(&self, part: Part) -> u32
        requires { DescribesPart self.now part }
        ensures { result ≡ first_cell_in self.now part }
    {
        match part {
            Part::Sub(device, sub) => self.first_cell_of_sub(device, sub),
            _ => 0,
        }
    }

    fn first_cell_of_sub(&self, device: u32, sub: u32) -> u32
        requires { DescribesPart self.now (parts.Sub device sub) }
        ensures { result ≡ first_cell_in self.now (parts.Sub device sub) }
    {
        let mut cell = self.cells_of(Part::Device(device));
        for earlier in 0..sub {
            cell += self.cells_of(Part::Sub(device, earlier));
        }
        cell
    }

    /// Returns the number of cells of one element of `item`, at most 2^32 - 1.
    pub fn item_cells(&self, item: Item) -> u32
        ensures { result ≡ in_u32 (item_size_in self.now item) }
    {
        item_size(Measure::Cells, self.sizes(), item)
    }

    /// Returns the number of fields of `part`.
    ///
    /// # Requires
    ///
    /// The set has `part`.
    pub fn field_count(&self, part: Part) -> u32
        requires { DescribesPart self.now part }
        ensures { result ≡ length (desc_in self.now part).fields }
    {
        self.desc(part).fields.as_slice().len() as u32
    }

    /// Returns the number of subsections of device `device`.
    ///
    /// # Requires
    ///
    /// The set has the device.
    pub fn sub_count(&self, device: u32) -> u32
        requires { DescribesDevice self.now device }
        ensures { result ≡ length (device_in self.now device).subs }
    {
        self.device(device).subs.as_slice().len() as u32
    }

    /// Returns the number of cells of field `field` of `part`, at most 2^32 - 1. An array has cells
    /// for its full length or capacity.
    ///
    /// # Requires
    ///
    /// The set has `part`, and the part has the field.
    pub fn field_cells(&self, part: Part, field: u32) -> u32
        requires { DescribesField self.now part field }
        ensures { result ≡ in_u32 (field_size_in self.now part field) }
    {
        let field = &self.desc(part).fields.as_slice()[field as usize];
        capacity(field.count).saturating_mul(self.item_cells(field.item))
    }

    /// Returns the first cell of field `field` of `part`.
    ///
    /// `base` is the first cell of the part, or of one element of a structure.
    ///
    /// # Requires
    ///
    /// The set has `part`, the part has the field, and its cells end at most
    /// [`MOST_ITEMS`](vms_spec::MOST_ITEMS) cells after the device's first.
    #[inline(always)]
    pub fn field_start(&self, part: Part, base: u32, field: u32) -> u32
        requires field { DescribesField self.now part field }
        requires few { base + own_count_in self.now part ≤ MOST_ITEMS }
        ensures { result ≡ field_start_in self.now part base field }
    {
        self.start_in(part, self.fields_of(part), base, field)
    }

    /// Returns the least capacity of the arrays whose elements field `field` of `part` counts, or
    /// `None` if it counts none.
    ///
    /// # Requires
    ///
    /// The set has `part`, and the part has the field.
    pub fn most(&self, part: Part, field: u32) -> Option<u32>
        requires { DescribesField self.now part field }
        ensures { result ≡ least_of (counted field (desc_in self.now part).fields) }
    {
        self.most_in(part, self.fields_of(part), field)
    }

    /// Returns the fields of `part`.
    ///
    /// # Requires
    ///
    /// The set has `part`.
    #[inline(always)]
    pub fn fields_of(&self, part: Part) -> PartFields<'_>
        requires { DescribesPart self.now part }
        ensures { AreFieldsOf self.now part result }
    {
        let table = self.table(part);
        PartFields {
            fields: self.desc(part).fields.as_slice(),
            starts: table.starts.as_slice(),
            mosts: table.mosts.as_slice(),
        }
    }

    /// Returns the first cell of field `field` of `part`, as [`field_start`](Self::field_start)
    /// does.
    ///
    /// # Requires
    ///
    /// As [`field_start`](Self::field_start), and `fields` are those of the part.
    #[inline(always)]
    pub fn start_in(&self, part: Part, fields: PartFields<'_>, base: u32, field: u32) -> u32
        requires of { AreFieldsOf self.now part fields }
        requires field { DescribesField self.now part field }
        requires few { base + own_count_in self.now part ≤ MOST_ITEMS }
        ensures { result ≡ field_start_in self.now part base field }
    {
        base + fields.starts[field as usize]
    }

    /// Returns the least capacity of the arrays that field `field` counts, as [`most`](Self::most)
    /// does.
    ///
    /// # Requires
    ///
    /// As [`most`](Self::most), and `fields` are those of the part.
    #[inline(always)]
    pub fn most_in(&self, part: Part, fields: PartFields<'_>, field: u32) -> Option<u32>
        requires of { AreFieldsOf self.now part fields }
        requires field { DescribesField self.now part field }
        ensures { result ≡ least_of (counted field (desc_in self.now part).fields) }
    {
        fields.mosts[field as usize]
    }

    // Returns the scope of a part, or of one element of a structure, whose first cell is `base`.
    #[inline(always)]
    pub(crate) fn scope(&self, part: Part, base: u32) -> Scope<'_>
        requires { DescribesPart self.now part }
        ensures { IsScopeOf self.now part base result }
    {
        Scope {
            fields: self.desc(part).fields.as_slice(),
            starts: self.table(part).starts.as_slice(),
            base,
        }
    }

    /// Returns whether field `field` of `part` is present at `version`, by the numbers of `cells`.
    ///
    /// `base` is the first cell of the part, or of one element of a structure.
    ///
    /// # Requires
    ///
    /// The set has `part`, the part has the field, and `cells` has the part's cells from `base` on
    /// and at most [`MOST_ITEMS`](vms_spec::MOST_ITEMS) numbers.
    #[inline(always)]
    pub fn is_there<C: Cells>(
        &self,
        part: Part,
        base: u32,
        field: u32,
        version: u32,
        cells: &C,
    ) -> bool
        requires { CanAskField self.now part base field (C.numbers cells.now) }
        ensures { result ≡ is_there_in self.now part base field version (C.numbers cells.now) }
    {
        let field = &self.desc(part).fields.as_slice()[field as usize];
        self.is_present(part, base, field, version, cells)
    }

    /// Returns whether `field` is present at `version`, as [`is_there`](Self::is_there) does.
    ///
    /// # Requires
    ///
    /// As [`is_there`](Self::is_there), and `field` is one of the part's.
    #[inline(always)]
    pub fn is_present<C: Cells>(
        &self,
        part: Part,
        base: u32,
        field: &Field,
        version: u32,
        cells: &C,
    ) -> bool
        requires { CanAskOf self.now part base (field_of field.now) (C.numbers cells.now) }
        ensures { let f = field_of field.now in
            result ≡ is_present_in self.now part base f version (C.numbers cells.now) }
    {
        match &field.test {
            None => version >= field.since,
            Some(test) => self.holds_test(part, base, test, version, cells),
        }
    }

    // Returns whether a test of a field of `part` holds. The scope has room in this function, which is
    // inlined, so that a field without a test needs none.
    #[inline(always)]
    fn holds_test<C: Cells>(
        &self,
        part: Part,
        base: u32,
        test: &Test,
        version: u32,
        cells: &C,
    ) -> bool
        requires { CanTest self.now part base (formula test.now) (C.numbers cells.now) }
        ensures { let t = formula test.now in
            result ≡ own_truth_in self.now part base t version (C.numbers cells.now) }
    {
        holds(test, version, &self.scope(part, base), None, cells)
    }

    /// Returns the number of elements of field `field` of `part` in the bytes, if the field is
    /// present.
    ///
    /// `base` is the first cell of the part, or of one element of a structure. The answer is at
    /// most the capacity.
    ///
    /// # Requires
    ///
    /// As [`is_there`](Self::is_there).
    #[inline(always)]
    pub fn elements<C: Cells>(&self, part: Part, base: u32, field: u32, cells: &C) -> u32
        requires { CanAskField self.now part base field (C.numbers cells.now) }
        ensures { result ≡ elements_in self.now part base field (C.numbers cells.now) }
    {
        let field = &self.desc(part).fields.as_slice()[field as usize];
        self.count_of(part, base, field, cells)
    }

    /// Returns the number of elements of `field` in the bytes, as [`elements`](Self::elements)
    /// does.
    ///
    /// # Requires
    ///
    /// As [`is_present`](Self::is_present).
    #[inline(always)]
    pub fn count_of<C: Cells>(&self, part: Part, base: u32, field: &Field, cells: &C) -> u32
        requires { CanAskOf self.now part base (field_of field.now) (C.numbers cells.now) }
        ensures { let f = field_of field.now in
            result ≡ count_in self.now part base f (C.numbers cells.now) }
    {
        match field.count {
            Count::One => 1,
            Count::Fixed(length) => length,
            Count::Counted { by, capacity } => {
                let own = self.scope(part, base);
                number_at(&own, by, cells).min(capacity as u64) as u32
            }
        }
    }

    /// Returns whether all validations of `part` hold at `version`, by the numbers of `cells`.
    ///
    /// `base` is the first cell of the part, or of one element of a structure.
    ///
    /// # Requires
    ///
    /// The set has `part`, and `cells` has the part's cells from `base` on and at most
    /// [`MOST_ITEMS`](vms_spec::MOST_ITEMS) numbers.
    pub fn holds_rules<C: Cells>(&self, part: Part, base: u32, version: u32, cells: &C) -> bool
        requires { CanAsk self.now part base (C.numbers cells.now) }
        ensures { result ≡ rules_hold_in self.now part base version (C.numbers cells.now) }
    {
        let tests = self.desc(part).validate.as_slice();
        if tests.is_empty() {
            return true;
        }
        all_hold(tests, version, &self.scope(part, base), cells)
    }

    /// Returns whether subsection `sub` of device `device` is needed, by the numbers of the
    /// device's cells.
    ///
    /// # Requires
    ///
    /// The set has the subsection, and `cells` has all cells of the device and at most
    /// [`MOST_ITEMS`](vms_spec::MOST_ITEMS) numbers.
    pub fn is_needed<C: Cells>(&self, device: u32, sub: u32, cells: &C) -> bool
        requires sub { DescribesSub self.now device sub (C.numbers cells.now) }
        requires few { length (C.numbers cells.now) ≤ MOST_ITEMS }
        ensures { result ≡ is_needed_in self.now device sub (C.numbers cells.now) }
    {
        let part = Part::Sub(device, sub);
        let described = &self.device(device).subs.as_slice()[sub as usize];
        let base = self.first_cell(part);
        self.eval(part, base, &described.needed, described.desc.version, cells)
    }
}
