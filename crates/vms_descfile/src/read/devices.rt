// Devices and their subsections.
ghost use Rattle.std.specs.Prelude.{Some};
ghost use Rattle.vms_json.specs.Nodes.{view};
ghost use Rattle.vms_spec.specs.Sets as sets;
ghost use Rattle.vms_parts.specs.Views.{sub_of as sub_seen, device_of as device_seen};
ghost use Rattle.vms_json.specs.Answers.{Answers};
ghost use Rattle.vms_json.specs.Names.{names_seen, names_if};
ghost use Rattle.vms_descfile.specs.Descs.{sub_in, sub_of, Whole as TheWhole, whole_seen, whole_in, whole_of, device_in, device_of};

use super::descs::{read_head, read_rest};
use super::tests::TestIn;
use std::alloc::Global;
use vms_json::{
    Fault, FieldNames, ListOf, Names, Node, Reads, Scope, U32, at, at_or, fits, is_asked,
};
use vms_parts::{Desc, Device, Listed, Sub};

// A reader of a subsection, whose needed test may name fields of the device.
#[derive(Clone, Copy)]
struct SubOf<'a> {
    asks: bool,
    parent: Names<'a>,
}

impl<'a> Reads for SubOf<'a> {
    type Out = Sub;

    ghost Meaning = { sets.Sub };

    ghost means = { sub_seen };

    ghost says = { λ s. sub_of s.asks (names_seen s.parent) };

    fn read(&self, alloc: Global, value: &Node) -> Result<Sub, Fault> {
        if fits(
            value,
            &["needed", "fields", "name", "version"],
            &["minimum", "validate"],
        ) {
            read_sub_asked(alloc, self.asks, self.parent, value)
        } else {
            Err(Fault::here(alloc))
        }
    }
}

fn read_sub_asked(alloc: Global, asks: bool, parent: Names, value: &Node) -> Result<Sub, Fault>
    ensures { Answers sub_seen (sub_in
        (record { own = names_if asks (view value.now); parent = Some (names_seen parent.entry) })
        (view value.now)) result }
{
    if asks {
        let names = FieldNames::of(alloc, value)?;
        read_sub(alloc, Some(&names), parent, value)
    } else {
        read_sub(alloc, None, parent, value)
    }
}

fn read_sub(alloc: Global, own: Names, parent: Names, value: &Node) -> Result<Sub, Fault>
    ensures { Answers sub_seen (sub_in
        (record { own = names_seen own.entry; parent = Some (names_seen parent.entry) })
        (view value.now)) result }
{
    let head = read_head(alloc, own, value)?;
    let scope = Scope {
        own,
        parent: Some(parent),
    };
    let needed = at(alloc, &TestIn(scope), "needed", value)?;
    let desc = read_rest(alloc, own, head, value)?;
    Ok(Sub { desc, needed })
}

// The description of a device, with its subsections.
#[derive(Drop)]
pub(crate) struct Whole {
    desc: Desc,
    subs: Listed<Sub>,
}

#[derive(Clone, Copy)]
struct WholeOf {
    asks: bool,
}

impl Reads for WholeOf {
    type Out = Whole;

    ghost Meaning = { TheWhole };

    ghost means = { whole_seen };

    ghost says = { λ s. whole_of s.asks };

    fn read(&self, alloc: Global, value: &Node) -> Result<Whole, Fault> {
        if fits(
            value,
            &["fields", "name", "version"],
            &["subsections", "minimum", "validate"],
        ) {
            read_whole_asked(alloc, self.asks, value)
        } else {
            Err(Fault::here(alloc))
        }
    }
}

fn read_whole_asked(alloc: Global, asks: bool, value: &Node) -> Result<Whole, Fault>
    ensures { Answers whole_seen (whole_in asks (names_if asks (view value.now)) (view value.now))
        result }
{
    if is_asked(asks, value) {
        let names = FieldNames::of(alloc, value)?;
        read_whole(alloc, asks, Some(&names), value)
    } else {
        read_whole(alloc, asks, None, value)
    }
}

fn read_whole(alloc: Global, asks: bool, names: Names, value: &Node) -> Result<Whole, Fault>
    ensures { Answers whole_seen (whole_in asks (names_seen names.entry) (view value.now)) result }
{
    let head = read_head(alloc, names, value)?;
    let sub = SubOf {
        asks,
        parent: names,
    };
    let none = Listed::new(Vec::new(alloc));
    let subs = at_or(alloc, &ListOf(sub), "subsections", value, none)?;
    let desc = read_rest(alloc, names, head, value)?;
    Ok(Whole { desc, subs })
}

// A reader of a device. `asks` says whether names are looked up.
#[derive(Clone, Copy)]
pub(crate) struct DeviceOf {
    pub(crate) asks: bool,
}

impl Reads for DeviceOf {
    type Out = Device;

    ghost Meaning = { sets.Device };

    ghost means = { device_seen };

    ghost says = { λ s. device_of s.asks };

    fn read(&self, alloc: Global, value: &Node) -> Result<Device, Fault> {
        if fits(value, &["desc", "instance"], &[]) {
            read_device(alloc, self.asks, value)
        } else {
            Err(Fault::here(alloc))
        }
    }
}

fn read_device(alloc: Global, asks: bool, value: &Node) -> Result<Device, Fault>
    ensures { Answers device_seen (device_in asks (view value.now)) result }
{
    let whole = at(alloc, &WholeOf { asks }, "desc", value)?;
    let instance = at(alloc, &U32, "instance", value)?;
    Ok(Device {
        instance,
        desc: whole.desc,
        subs: whole.subs,
    })
}
