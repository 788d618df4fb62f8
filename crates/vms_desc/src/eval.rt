// The truth of tests.
ghost use Rattle.std.specs.Option.{option_copied};
ghost use Rattle.std.specs.Prelude.{◌≡◌, ◌-◌, ◌*◌, ◌^◌, ◌<◌, true, length, get_or, map, pos};
ghost use Rattle.vms_kinds.specs.Codes.{width, residue};
ghost use Rattle.vms_spec.specs.Layout.{kind_of, all_hold};
ghost use Rattle.vms_spec.specs.Rules.{is_num};
ghost use Rattle.vms_spec.specs.Tests.{compares};
ghost use Rattle.vms_parts.specs.Views.{formula};
ghost use Rattle.vms_desc.specs.Numbers.{number_of, number_of_parent};
ghost use Rattle.vms_desc.specs.Scopes.{CanHold, CanHoldAll, HasNumber, HasParentNumber, IsPlainTruth, truth_by};

use crate::{Field, Rel, Test, Whose};
use vms_kinds::{Item, Kind};

/// The numbers of cells, as an image has them. Tests are evaluated over any type that has them.
pub trait Cells {
    ghost use Rattle.std.specs.Prelude.{◌≡◌, ◌<◌, List, ℤ, length, get_or, pos};

    /// The numbers of all cells, in order.
    ghost numbers: { Self → List ℤ };

    /// Returns the number of cell `cell`.
    ///
    /// # Requires
    ///
    /// There is such a cell.
    fn number(&self, cell: u32) -> i128
        requires { cell < length (numbers self.now) }
        ensures { result ≡ get_or (numbers self.now) cell (pos 0) };
}

/// The numbers of cells in a slice.
#[derive(Clone, Copy)]
pub struct Numbers<'a> {
    /// The numbers, in the order of the cells.
    pub numbers: &'a [i128],
}

impl Cells for Numbers<'_> {
    ghost numbers = { λ cells. cells.numbers.now };

    fn number(&self, cell: u32) -> i128 {
        self.numbers[cell as usize]
    }
}

// The fields that a test may name, the first cell of each in their description, and the first cell
// of the description.
#[derive(Clone, Copy)]
pub(crate) struct Scope<'a> {
    pub(crate) fields: &'a [Field],
    pub(crate) starts: &'a [u32],
    pub(crate) base: u32,
}

// What a test is evaluated over: a version, the fields that it may name, and the numbers of the
// cells.
#[derive(Drop)]
struct Asked<'a, C> {
    version: u32,
    own: Scope<'a>,
    parent: Option<Scope<'a>>,
    cells: &'a C,
}

// Returns whether a test holds at a version. It isn't inlined, so that a walk has no room for what
// a test is evaluated over.
#[inline(never)]
pub(crate) fn holds<'a, C: Cells>(
    test: &Test,
    version: u32,
    own: &Scope<'a>,
    parent: Option<&Scope<'a>>,
    cells: &'a C,
) -> bool
    requires { CanHold (formula test.now) own.now (option_copied parent) (C.numbers cells.now) }
    ensures { let above = option_copied parent.entry in
        result ≡ truth_by (formula test.now) version own.now above (C.numbers cells.now) }
{
    let asked = Asked {
        version,
        own: *own,
        parent: parent.copied(),
        cells,
    };
    is_true(test, &asked)
}

// Returns whether a test is true.
fn is_true<C: Cells>(test: &Test, asked: &Asked<'_, C>) -> bool
    requires { let numbers = C.numbers asked.now.cells.now in
        CanHold (formula test.now) asked.now.own asked.now.parent numbers }
    ensures { let numbers = C.numbers asked.now.cells.now in
        result ≡ truth_by (formula test.now)
        asked.now.version asked.now.own asked.now.parent numbers }
{
    match test {
        Test::AtLeast(_) | Test::Below(_) | Test::Cell { .. } => {
            plain_holds(test, asked) == Some(true)
        }
        Test::Not(inner) => !is_true(inner, asked),
        Test::And(first, second) => {
            let front = match plain_holds(first, asked) {
                Some(held) => held,
                None => is_true(first, asked),
            };
            front && is_true(second, asked)
        }
        Test::Or(first, second) => {
            let front = match plain_holds(first, asked) {
                Some(held) => held,
                None => is_true(first, asked),
            };
            front || is_true(second, asked)
        }
    }
}

// Returns whether a test of the version or of one number holds, and `None` for any other test. It
// is inlined, so the leaves of a test need no call.
#[inline(always)]
fn plain_holds<C: Cells>(test: &Test, asked: &Asked<'_, C>) -> Option<bool>
    requires { let numbers = C.numbers asked.now.cells.now in
        CanHold (formula test.now) asked.now.own asked.now.parent numbers }
    ensures { let numbers = C.numbers asked.now.cells.now in
        IsPlainTruth (formula test.now)
        asked.now.version asked.now.own asked.now.parent numbers result }
{
    match test {
        Test::AtLeast(least) => Some(asked.version >= *least),
        Test::Below(bound) => Some(asked.version < *bound),
        Test::Cell {
            whose,
            field,
            mask,
            rel,
            value,
        } => {
            let number = match whose {
                Whose::Own => number_at(&asked.own, *field, asked.cells),
                Whose::Parent => parent_number(&asked.parent, *field, asked.cells),
            };
            Some(compare(*rel, number & *mask, *value))
        }
        Test::Not(_) | Test::And(..) | Test::Or(..) => None,
    }
}

// Returns whether all tests of a description hold at a version.
#[inline(never)]
pub(crate) fn all_hold<'a, C: Cells>(
    tests: &[Test],
    version: u32,
    own: &Scope<'a>,
    cells: &'a C,
) -> bool
    requires { CanHoldAll (map formula tests.now) own.now (C.numbers cells.now) }
    ensures { result ≡ all_hold (map formula tests.now) version
        (number_of (C.numbers cells.now) own.now) }
{
    let asked = Asked {
        version,
        own: *own,
        parent: None,
        cells,
    };
    for test in tests {
        if !is_true(test, &asked) {
            return false;
        }
    }
    true
}

// Returns the number of a field, modulo 2^(8w).
#[inline(always)]
pub(crate) fn number_at<C: Cells>(scope: &Scope, field: u32, cells: &C) -> u64
    requires { HasNumber scope.now field (C.numbers cells.now) }
    ensures { result ≡ number_of (C.numbers cells.now) scope.now field }
{
    let field = field as usize;
    let cell = scope.base + scope.starts[field];
    unsigned(kind_of(scope.fields[field].item), cells.number(cell))
}

fn parent_number<C: Cells>(parent: &Option<Scope>, field: u32, cells: &C) -> u64
    requires { HasParentNumber parent.now field (C.numbers cells.now) }
    ensures { result ≡ number_of_parent (C.numbers cells.now) parent.now field }
{
    match parent {
        None => 0,
        Some(scope) => number_at(scope, field, cells),
    }
}

// Returns the kind of an item that is a number.
fn kind_of(item: Item) -> Kind
    requires { is_num item ≡ true }
    ensures { result ≡ kind_of item }
{
    match item {
        Item::Num(kind) => kind,
        Item::Equal { .. } | Item::Unused { .. } | Item::Struct(_) => unreachable!(),
    }
}

// Returns the number modulo 2^(8w). The mask is looked up by the kind, so no division and no jump is
// needed.
fn unsigned(kind: Kind, number: i128) -> u64
    ensures { result ≡ residue (width kind) number }
{
    low_bytes(number) & mask_of(kind)
}

// Returns the number modulo 2^64.
fn low_bytes(number: i128) -> u64
    ensures { result ≡ residue 8 number }
{
    number.rem_euclid(1 << 64) as u64
}

// Returns the greatest code of a number, as a number: 2^(8w) - 1.
fn mask_of(kind: Kind) -> u64
    ensures { result ≡ 2 ^ (8 * width kind) - 1 }
{
    match kind {
        Kind::U8 | Kind::I8 | Kind::Bool => u8::MAX as u64,
        Kind::U16 | Kind::I16 => u16::MAX as u64,
        Kind::U32 | Kind::I32 => u32::MAX as u64,
        Kind::U64 | Kind::I64 | Kind::Timer => u64::MAX,
    }
}

fn compare(rel: Rel, number: u64, value: u64) -> bool
    ensures { result ≡ compares rel number value }
{
    match rel {
        Rel::Eq => number == value,
        Rel::Ne => number != value,
        Rel::Lt => number < value,
        Rel::Ge => number >= value,
    }
}
