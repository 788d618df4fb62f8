// Parts that no description file can describe: counts by fields that don't exist, defaults where none is allowed,
// and tests of fields that don't exist. A file names fields, and has no key or number where none is allowed.
use std::alloc::Global;
use std::test::Fail;
use vms_desc::{
    Count, Desc, DescFault, DescSet, Device, Field, Listed, Part, Parts, Place, Rel, Sub, Test,
    Text, Whose,
};
use vms_kinds::{Item, Kind};

/// A test that the number of a field is 0, below a number of `not`.
type Asks = (Whose, u32, u32);

/// What is special about the parts: the field `b` is counted by a field, with capacity 2, or has an
/// item and a default, or a test; the device has a validation; or the subsection is needed by a
/// test.
#[derive(Clone, Copy)]
enum Said {
    Counted(u32),
    Default(Item, i128),
    Test(Asks),
    Validate(Asks),
    Needed(Asks),
}

fn not(alloc: Global, test: Test) -> Result<Test, Fail> {
    Ok(Test::Not(Box::new(alloc, test)?))
}

fn test(alloc: Global, asks: Asks) -> Result<Test, Fail> {
    let (whose, field, deep) = asks;
    let mut test = Test::Cell {
        whose,
        field,
        mask: 255,
        rel: Rel::Eq,
        value: 0,
    };
    for _ in 0..deep {
        test = not(alloc, test)?;
    }
    Ok(test)
}

fn text(alloc: Global, name: &str) -> Result<Text, Fail> {
    Ok(Text::copied(alloc, name)?)
}

/// Returns a field that is a byte, unless more is given.
fn field(alloc: Global, name: &str, count: Count, since: u32) -> Result<Field, Fail> {
    Ok(Field {
        name: text(alloc, name)?,
        former: Listed::new(Vec::new(alloc)),
        item: Item::Num(Kind::U8),
        count,
        since,
        test: None,
        default: 0,
    })
}

/// Returns the field that `said` describes.
fn said_field(alloc: Global, said: Said) -> Result<Field, Fail> {
    let mut field = field(alloc, "b", Count::One, 0)?;
    match said {
        Said::Counted(by) => field.count = Count::Counted { by, capacity: 2 },
        Said::Default(item, default) => {
            field.item = item;
            field.default = default;
        }
        Said::Test(asks) => field.test = Some(Box::new(alloc, test(alloc, asks)?)?),
        _ => {}
    }
    Ok(field)
}

fn desc(alloc: Global, name: &str, fields: Vec<Field>, validate: Vec<Test>) -> Result<Desc, Fail> {
    Ok(Desc {
        name: text(alloc, name)?,
        version: 1,
        minimum: 1,
        fields: Listed::new(fields),
        validate: Listed::new(validate),
    })
}

/// Returns a structure or a subsection with a byte `x`.
fn small(alloc: Global, name: &str) -> Result<Desc, Fail> {
    let fields = vec![in alloc; field(alloc, "x", Count::One, 0)?]?;
    desc(alloc, name, fields, Vec::new(alloc))
}

/// Returns the bytes `a`, `b` and `c`, two bytes `p`, and a byte `l` since version 2.
fn fields(alloc: Global, said: Said) -> Result<Vec<Field>, Fail> {
    let mut fields = Vec::new(alloc);
    fields.push(field(alloc, "a", Count::One, 0)?)?;
    fields.push(said_field(alloc, said)?)?;
    fields.push(field(alloc, "c", Count::One, 0)?)?;
    fields.push(field(alloc, "p", Count::Fixed(2), 0)?)?;
    fields.push(field(alloc, "l", Count::One, 2)?)?;
    Ok(fields)
}

fn device(alloc: Global, said: Said) -> Result<Device, Fail> {
    let mut validate = Vec::new(alloc);
    if let Said::Validate(asks) = said {
        validate.push(test(alloc, asks)?)?;
    }
    let needed = match said {
        Said::Needed(asks) => test(alloc, asks)?,
        _ => Test::AtLeast(0),
    };
    let desc = desc(alloc, "box", fields(alloc, said)?, validate)?;
    let sub = Sub {
        desc: small(alloc, "box/s")?,
        needed,
    };
    Ok(Device {
        instance: 0,
        desc,
        subs: Listed::new(vec![in alloc; sub]?),
    })
}

/// Returns what is wrong with a structure `s` and a device `box` with a subsection `box/s`.
fn fault(alloc: Global, said: Said) -> Result<DescFault, Fail> {
    let parts = Parts {
        machines: Listed::new(Vec::new(alloc)),
        structs: Listed::new(vec![in alloc; small(alloc, "s")?]?),
        devices: Listed::new(vec![in alloc; device(alloc, said)?]?),
    };
    Ok(DescSet::new(alloc, parts).err().ok_or("well formed")?)
}

/// The field `b`, the device and its subsection.
const FIELD: (Part, Option<u32>) = (Part::Device(0), Some(1));

const DEVICE: (Part, Option<u32>) = (Part::Device(0), None);

const SUB: (Part, Option<u32>) = (Part::Sub(0, 0), None);

const OWN: Whose = Whose::Own;

const PARENT: Whose = Whose::Parent;

const CONSTANT: Item = Item::Equal {
    kind: Kind::I8,
    value: 1,
};

/// Parts, and the rule that they break at a place.
static BROKEN: [(Said, u8, (Part, Option<u32>)); 22] = [
    (Said::Counted(5), 4, FIELD),
    (Said::Counted(4_294_967_295), 4, FIELD),
    (
        Said::Default(Item::Num(Kind::Timer), 18_446_744_073_709_551_616),
        6,
        FIELD,
    ),
    (Said::Default(CONSTANT, 1), 6, FIELD),
    (Said::Default(Item::Unused { bytes: 1 }, 1), 6, FIELD),
    (Said::Default(Item::Struct(0), -1), 6, FIELD),
    (Said::Test((OWN, 5, 0)), 4, FIELD),
    (Said::Test((PARENT, 0, 0)), 4, FIELD),
    (Said::Test((PARENT, 1, 0)), 4, FIELD),
    (Said::Test((PARENT, 2, 0)), 4, FIELD),
    (Said::Test((PARENT, 3, 0)), 4, FIELD),
    // a test that is too deep, of a field that doesn't exist
    (Said::Test((OWN, 9, 16)), 4, FIELD),
    (Said::Validate((OWN, 5, 0)), 4, DEVICE),
    (Said::Validate((PARENT, 0, 0)), 4, DEVICE),
    (Said::Validate((PARENT, 1, 0)), 4, DEVICE),
    (Said::Validate((PARENT, 2, 0)), 4, DEVICE),
    (Said::Validate((PARENT, 3, 0)), 4, DEVICE),
    (Said::Needed((OWN, 1, 0)), 4, SUB),
    (Said::Needed((OWN, 2, 0)), 4, SUB),
    (Said::Needed((OWN, 3, 0)), 4, SUB),
    (Said::Needed((OWN, 4, 0)), 4, SUB),
    (Said::Needed((OWN, 5, 0)), 4, SUB),
];

fn breaks(alloc: Global, said: Said, rule: u8, place: Place) -> Result<bool, Fail> {
    Ok(fault(alloc, said)? == DescFault::IllFormed { rule, place })
}

#[test]
fn parts_that_no_file_says_break_a_rule(rt: HostRuntime) -> Result<(), Fail> {
    for (said, rule, (part, field)) in &BROKEN {
        let place = Place {
            part: *part,
            field: *field,
        };
        assert!(rt; breaks(rt.alloc(), *said, *rule, place)?);
    }
    Ok(())
}
