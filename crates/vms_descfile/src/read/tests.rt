// Tests.
ghost use Rattle.std.specs.Prelude.{◌≡◌, IfOk, IfErr, Some, codes};
ghost use Rattle.serde_json.specs.Find.{get};
ghost use Rattle.vms_json.specs.Nodes.{view, items_left};
ghost use Rattle.vms_spec.specs.Sets.{Formula, Not};
ghost use Rattle.vms_parts.specs.Views.{formula, formula_in};
ghost use Rattle.vms_json.specs.Answers.{Answer, Answers, under, changed};
ghost use Rattle.vms_json.specs.declared.fault.Fault.TheVariants as faults;
ghost use Rattle.vms_json.specs.Members.{at as said_at};
ghost use Rattle.vms_json.specs.Names.{scope_seen};
ghost use Rattle.vms_descfile.specs.Tests.{test_within, test_of, leaf_as, pair_seen, two_of, two_in, both, joined, key_of};

use super::cells::{Form, Join, Leaf, form_of, own_in, read_own, read_own_cell, read_parent};
use std::alloc::Global;
use vms_json::{DEEPEST, Fault, Items, Node, Reads, Scope, U32, at};
use vms_parts::Test;

// A reader of a test of the description, or of a needed test.
#[derive(Clone, Copy)]
pub(crate) struct TestIn<'a>(pub(crate) Scope<'a>);

impl<'a> Reads for TestIn<'a> {
    type Out = Test;

    ghost Meaning = { Formula };

    ghost means = { formula };

    ghost says = { λ s. test_of (scope_seen s.0) };

    fn read(&self, alloc: Global, value: &Node) -> Result<Test, Fault> {
        read_test(alloc, DEEPEST, self.0, value)
    }
}

// The same in a box, as fields have it: most have no test.
#[derive(Clone, Copy)]
pub(crate) struct BoxedTestIn<'a>(pub(crate) Scope<'a>);

impl<'a> Reads for BoxedTestIn<'a> {
    type Out = Box<Test>;

    ghost Meaning = { Formula };

    ghost means = { formula_in };

    ghost says = { λ s. test_of (scope_seen s.0) };

    fn read(&self, alloc: Global, value: &Node) -> Result<Box<Test>, Fault> {
        let test = read_test(alloc, DEEPEST, self.0, value)?;
        Ok(Box::new(alloc, test)?)
    }
}

// Reads a test of at most `depth` levels.
fn read_test(alloc: Global, depth: usize, scope: Scope, value: &Node) -> Result<Test, Fault>
    ensures { Answers formula (test_within depth (scope_seen scope.entry) (view value.now)) result }
{
    if depth == 0 {
        return Err(Fault::here(alloc));
    }
    if let Some(own) = own_in(value) {
        return read_own_cell(alloc, scope, own);
    }
    match form_of(value) {
        Form::Leaf(leaf) => read_leaf(alloc, leaf, scope, value),
        Form::Not => match value.get("not") {
            Some(inner) => negated(alloc, read_test(alloc, depth - 1, scope, &inner)),
            None => Err(Fault::here(alloc)),
        },
        Form::Two(join) => match two_items(alloc, value, join.key()) {
            Ok((first, second)) => {
                let first = read_test(alloc, depth - 1, scope, &first);
                let second = read_test(alloc, depth - 1, scope, &second);
                both(alloc, join, first, second)
            }
            Err(fault) => Err(fault),
        },
    }
}

// Reads a test that contains no other.
fn read_leaf(alloc: Global, leaf: Leaf, scope: Scope, value: &Node) -> Result<Test, Fault>
    ensures { Answers formula (leaf_as leaf (scope_seen scope.entry) (view value.now)) result }
{
    match leaf {
        Leaf::AtLeast => Ok(Test::AtLeast(at(alloc, &U32, "at_least", value)?)),
        Leaf::Below => Ok(Test::Below(at(alloc, &U32, "below", value)?)),
        Leaf::Own => read_own(alloc, scope, value),
        Leaf::Parent => match scope.parent {
            Some(names) => read_parent(alloc, names, value),
            None => Err(Fault::here(alloc)),
        },
        Leaf::None => Err(Fault::here(alloc)),
    }
}

fn negated(alloc: Global, inner: Result<Test, Fault>) -> Result<Test, Fault>
    ensures { (x : Answer Formula) → Answers formula x inner
        → Answers formula (changed Not (under (codes "not") x)) result }
{
    match inner {
        Ok(test) => Ok(Test::Not(Box::new(alloc, test)?)),
        Err(fault) => Err(fault.under(alloc, "not")),
    }
}

// Returns the two items of a list under a key.
fn two_items<'t, 'a>(
    alloc: Global,
    value: &Node<'t, 'a>,
    key: &str,
) -> Result<(Node<'t, 'a>, Node<'t, 'a>), Fault>
    ensures { Answers pair_seen (said_at two_of key.now (view value.now)) result }
{
    match value.get(key) {
        Some(list) => match two_of(alloc, list) {
            Ok(two) => Ok(two),
            Err(fault) => Err(fault.under(alloc, key)),
        },
        None => Err(Fault::here(alloc)),
    }
}

fn two_of<'t, 'a>(alloc: Global, list: Node<'t, 'a>) -> Result<(Node<'t, 'a>, Node<'t, 'a>), Fault>
    ensures { Answers pair_seen (two_of (view list.entry)) result }
{
    match list.as_list() {
        Some(items) => two_in(alloc, items),
        None => Err(Fault::here(alloc)),
    }
}

fn two_in<'t, 'a>(
    alloc: Global,
    mut items: Items<'t, 'a>,
) -> Result<(Node<'t, 'a>, Node<'t, 'a>), Fault>
    ensures { Answers pair_seen (two_in (Some (items_left items.entry))) result }
{
    let Some(first) = items.next() else {
        return Err(Fault::here(alloc));
    };
    let Some(second) = items.next() else {
        return Err(Fault::here(alloc));
    };
    if items.next().is_some() {
        return Err(Fault::here(alloc));
    }
    Ok((first, second))
}

// Returns the test of both tests of a list of two.
fn both(
    alloc: Global,
    join: Join,
    first: Result<Test, Fault>,
    second: Result<Test, Fault>,
) -> Result<Test, Fault>
    ensures { (x y : Answer Formula) → Answers formula x first → Answers formula y second
        → Answers formula (under (key_of join) (both (joined join) x y)) result }
{
    match first {
        Ok(first) => match second {
            Ok(second) => pair(alloc, join, first, second),
            Err(fault) => Err(fault.under(alloc, "1").under(alloc, join.key())),
        },
        Err(fault) => Err(fault.under(alloc, "0").under(alloc, join.key())),
    }
}

fn pair(alloc: Global, join: Join, first: Test, second: Test) -> Result<Test, Fault>
    ensures ok { IfOk result (λ t. formula t ≡ joined join (formula first) (formula second)) }
    ensures err { IfErr result (λ fault. fault ≡ faults.NoMemory) }
{
    let (first, second) = (Box::new(alloc, first)?, Box::new(alloc, second)?);
    match join {
        Join::And => Ok(Test::And(first, second)),
        Join::Or => Ok(Test::Or(first, second)),
    }
}
