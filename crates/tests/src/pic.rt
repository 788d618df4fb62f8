// Edges of inputs that are low. Boards give these only to the first PIC's input 0.
use dev_pic::PicPair;
use std::process::Abort;

/// ICW1 to ICW4 of both chips: vectors from 0x08 and from 0x70.
static SET_UP: [(u16, u8); 8] = [
    (0x20, 0x11),
    (0x21, 0x08),
    (0x21, 0x04),
    (0x21, 0x01),
    (0xa0, 0x11),
    (0xa1, 0x70),
    (0xa1, 0x02),
    (0xa1, 0x01),
];

fn write(rt: &impl Abort, pair: &mut PicPair, port: u16, value: u8) {
    assert!(rt; pair.is_port(port));
    pair.write(port, value);
}

#[test]
fn an_edge_requests_an_input_that_is_low(rt: HostRuntime) {
    let mut pair = PicPair::new(2);
    for (port, value) in &SET_UP {
        write(&rt, &mut pair, *port, *value);
    }
    // an edge of the cascade input has no effect
    pair.settle(0, 0x0004);
    assert!(rt; !pair.int());
    pair.settle(0, 0x0101);
    assert!(rt; pair.lines() == 0x0004);
    assert!(rt; pair.ack() == 0x08);
    write(&rt, &mut pair, 0x20, 0x20);
    assert!(rt; pair.ack() == 0x70);
}
