// That there is memory for a board, that its replies come in the places of their frames, and that a text is loaded into it.
ghost use Rattle.std.proofs.Common.{arith, rules};

use crate::{Plan, kochalluq_load, kochalluq_replay};

const SMALL: Plan = Plan {
    base: 0x1000,
    part_id: 0x0001,
    flash: 128,
    sectors: 4,
    words: 16,
    boot: 64,
    eeprom: 64,
};

#[test]
fn replay(rt: HostRuntime) {
    // Connect, the password register, a bit rate, which has no reply, and a password of no memory
    let mut frames = [
        [0x01, 0, 0, 0, 0, 0, 0, 0],
        [0x02, 1, 0, 1, 0, 0, 0, 0],
        [0x21, 2, 0x00, 0x81, 0, 0, 0, 0],
        [0x13, 3, 2, 0x12, 0x35, 0, 0, 0],
    ];
    assert_eq!(rt; kochalluq_replay(rt.alloc(), &SMALL, &mut frames), true);
    assert_eq!(rt;
        frames,
        [
            [0xFF, 0x00, 0, 1, 0, 0x00, 0x01, 0],
            [0xFF, 0x00, 1, 0, 0, 0, 0, 0],
            [0x21, 2, 0x00, 0x81, 0, 0, 0, 0],
            [0xFF, 0x35, 3, 0, 0, 0, 0, 0],
        ]
    );
}

#[test]
fn load(rt: HostRuntime) {
    // two bytes for the first word of the flash, which is in its last sector
    let text = b"S10510001234A4\nS9030000FC\n";
    let (mut numbers, mut flash) = ([0; 7], 0);
    let is_told = kochalluq_load(rt.alloc(), &SMALL, text, 0, 0, &mut numbers, &mut flash);
    assert_eq!(rt; is_told, true);
    // loaded, with ten frames, of which three are those of the record, and one sector cleared
    assert_eq!(rt; numbers, [0, 0, 0, 0, 10, 1, 1]);
    assert_eq!(rt; flash, 0x184C);
}
