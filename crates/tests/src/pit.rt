// What each counter shows in each mode.
use dev_base::{LAST_MOMENT, is_level};
use dev_pit::Pit;
use std::process::Abort;

/// A mode, a count that was loaded at 0, a moment, the live count, OUT, and whether OUT has risen
/// by then.
type Shown = (u8, u16, u64, u16, bool, bool);

/// Each mode with the counts 1, 2, 0 (which means 65,536) and 5. Tick 1 is at 839 ns, 2 at 1,677, 3
/// at 2,515, 4 at 3,353, 5 at 4,191, 6 at 5,029, 32,768 at 27,462,701, 65,535 at 54,924,564, 65,536
/// at 54,925,402 and 65,537 at 54,926,240.
static SHOWN: [Shown; 48] = [
    (0, 1, 838, 1, false, false),
    (0, 1, 839, 0, true, true),
    (0, 1, 1_677, 65_535, true, true),
    (0, 2, 839, 1, false, false),
    (0, 2, 1_677, 0, true, true),
    (0, 0, 838, 0, false, false),
    (0, 0, 839, 65_535, false, false),
    (0, 0, 54_924_564, 1, false, false),
    (0, 0, 54_925_402, 0, true, true),
    (0, 5, 3_353, 1, false, false),
    (0, 5, 4_191, 0, true, true),
    (1, 1, 2_515, 1, true, false),
    (1, 2, 2_515, 2, true, false),
    (1, 0, 54_925_402, 0, true, false),
    (1, 5, 4_191, 5, true, false),
    (2, 1, 2_515, 1, true, false),
    (2, 2, 839, 1, false, false),
    (2, 2, 1_677, 2, true, true),
    (2, 0, 839, 65_535, true, false),
    (2, 0, 54_924_564, 1, false, false),
    (2, 0, 54_925_402, 0, true, true),
    (2, 5, 2_515, 2, true, false),
    (2, 5, 3_353, 1, false, false),
    (2, 5, 4_191, 5, true, true),
    (3, 1, 2_515, 1, true, false),
    (3, 2, 838, 2, true, false),
    (3, 2, 839, 2, false, false),
    (3, 2, 1_677, 2, true, true),
    (3, 0, 839, 65_534, true, false),
    (3, 0, 27_462_701, 0, false, false),
    (3, 0, 54_924_564, 2, false, false),
    (3, 0, 54_925_402, 0, true, true),
    (3, 5, 1_677, 0, true, false),
    (3, 5, 2_515, 4, false, false),
    (3, 5, 3_353, 2, false, false),
    (3, 5, 4_191, 4, true, true),
    (4, 1, 839, 0, false, false),
    (4, 1, 1_677, 65_535, true, true),
    (4, 2, 1_677, 0, false, false),
    (4, 2, 2_515, 65_535, true, true),
    (4, 0, 54_925_402, 0, false, false),
    (4, 0, 54_926_240, 65_535, true, true),
    (4, 5, 4_191, 0, false, false),
    (4, 5, 5_029, 65_535, true, true),
    (5, 1, 2_515, 1, true, false),
    (5, 2, 2_515, 2, true, false),
    (5, 0, 54_925_402, 0, true, false),
    (5, 5, 4_191, 5, true, false),
];

fn write(rt: &impl Abort, pit: &mut Pit, port: u16, value: u8, now: u64) {
    assert!(rt; Pit::is_port(port) && now <= LAST_MOMENT && pit.is_loaded_by(now));
    pit.write(port, value, now);
}

fn read(rt: &impl Abort, pit: &mut Pit, counter: u8) -> u8 {
    assert!(rt; counter < 3 && pit.is_loaded_by(60_000_000));
    pit.read(counter, 60_000_000)
}

/// Sets a counter's mode and count at 0, and checks what it shows at a moment.
fn shows(rt: &impl Abort, level: u8, counter: u8, row: &Shown) {
    let (mode, count, now, live, out, has_risen) = *row;
    assert!(rt; is_level(level) && counter < 3 && mode < 6 && now <= LAST_MOMENT);
    let mut pit = Pit::new(level);
    let port = 0x40 + counter as u16;
    write(rt, &mut pit, 0x43, 64 * counter + 0x30 + 2 * mode, 0);
    write(rt, &mut pit, port, (count % 256) as u8, 0);
    write(rt, &mut pit, port, (count / 256) as u8, 0);
    assert!(rt; pit.is_loaded_by(0) && pit.is_loaded_by(now));
    assert!(rt; pit.out(counter, now) == out);
    assert!(rt; pit.edge(counter, 0, now) == has_risen);
    write(rt, &mut pit, 0x43, 64 * counter, now);
    assert!(rt; read(rt, &mut pit, counter) == (live % 256) as u8);
    assert!(rt; read(rt, &mut pit, counter) == (live / 256) as u8);
}

#[test]
fn shows_every_mode_on_every_counter(rt: HostRuntime) {
    for level in [1, 2, 3, 4] {
        for counter in [0, 1, 2] {
            for row in &SHOWN {
                shows(&rt, level, counter, row);
            }
        }
    }
}
