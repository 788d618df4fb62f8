// Heads, footers and marks both ways, compared with bytes that were written by hand.
use std::test::Fail;
use vms_marks::{Configuration, Foot, Head, HeadFault, Mark, SubHead, name_of};

// The head of a timer's section.
const TIMER: [u8; 19] = *b"\x04\0\0\0\0\x05timer\0\0\0\0\0\0\0\x01";

#[test]
fn a_head_is_its_bytes_and_back(rt: HostRuntime) -> Result<(), Fail> {
    let rows: [(u32, &[u8], u32, u32, &[u8]); 3] = [
        (0, b"timer", 0, 1, &TIMER),
        (
            2,
            b"",
            3,
            0xffff_ffff,
            b"\x04\0\0\0\x02\0\0\0\0\x03\xff\xff\xff\xff",
        ),
        (
            0x0102_0304,
            b"box",
            0x0506,
            7,
            b"\x04\x01\x02\x03\x04\x03box\0\0\x05\x06\0\0\0\x07",
        ),
    ];
    for (id, name, instance, version, bytes) in rows {
        let head = Head {
            id,
            name: name_of(name),
            instance,
            version,
        };
        assert_eq!(rt; head.bytes().as_slice(), bytes);
        assert_eq!(rt; Head::read(bytes), Ok(head));
    }
    Ok(())
}

#[test]
fn bytes_that_are_no_head_say_why(rt: HostRuntime) -> Result<(), Fail> {
    let rows: [(&[u8], HeadFault); 6] = [
        (b"", HeadFault::WrongLength),
        (b"\x05", HeadFault::WrongMark),
        (b"\x01\0\0\0\x02\x03ram", HeadFault::WrongMark),
        (b"\x04\0\0\0\0", HeadFault::WrongLength),
        (&TIMER[..18], HeadFault::WrongLength),
        (
            b"\x04\0\0\0\0\x04timer\0\0\0\0\0\0\0\x01",
            HeadFault::WrongLength,
        ),
    ];
    for (bytes, fault) in rows {
        assert_eq!(rt; Head::read(bytes).err(), Some(fault));
    }
    Ok(())
}

#[test]
fn a_footer_is_its_bytes_and_back(rt: HostRuntime) -> Result<(), Fail> {
    let foot = Foot { id: 0x0102_0304 };
    assert_eq!(rt; foot.bytes(), *b"\x7e\x01\x02\x03\x04");
    assert_eq!(rt; Foot::read(*b"\x7e\x01\x02\x03\x04"), Some(foot));
    assert_eq!(rt; Foot::read(*b"\x00\x01\x02\x03\x04"), None);
    Ok(())
}

#[test]
fn a_subsection_head_and_a_configuration_are_their_bytes_and_back(
    rt: HostRuntime,
) -> Result<(), Fail> {
    let name = name_of(b"box/a");
    let head = SubHead {
        name,
        version: 0x0102,
    };
    let bytes = b"\x05\x05box/a\0\0\x01\x02";
    assert_eq!(rt; head.bytes().as_slice(), bytes.as_slice());
    assert_eq!(rt; SubHead::name_length(bytes), 5);
    assert_eq!(rt; SubHead::of(bytes), head);
    let machine = name_of(b"isa");
    let configuration = Configuration { machine };
    let bytes = b"\x07\0\0\0\x03isa";
    assert_eq!(rt; configuration.bytes().as_slice(), bytes.as_slice());
    assert_eq!(rt; Configuration::name_length(bytes), 3);
    assert_eq!(rt; Configuration::of(bytes), configuration);
    Ok(())
}

#[test]
fn each_mark_has_its_byte(rt: HostRuntime) -> Result<(), Fail> {
    let rows = [
        (0x00, Mark::End),
        (0x01, Mark::Start),
        (0x02, Mark::Part),
        (0x03, Mark::SectionEnd),
        (0x04, Mark::Full),
        (0x05, Mark::Sub),
        (0x06, Mark::Description),
        (0x07, Mark::Configuration),
        (0x08, Mark::Command),
        (0x7e, Mark::Footer),
    ];
    for (byte, mark) in rows {
        assert_eq!(rt; mark.byte(), byte);
        assert_eq!(rt; Mark::of(byte), Some(mark));
    }
    assert_eq!(rt; Mark::of(0x09), None);
    Ok(())
}
