// Loads over wires that lose frames and replies: the seven numbers of each report, and what the board shows then.
use crate::{BENCH, BlankBoard, Making, wire_to};
use bootloader::Setup;
use link::Outcome::{Arrives, FrameLost, ReplyLost};
use link::{Outcome, TableWire};
use loading::load;
use memory::{ReadablePart, read_all};
use std::alloc::Global;
use std::process::Abort;
use std::test::Fail;

// Two bytes for the first word, and for the first one of the next sector.
const FIRST: &str = "S10510001234A4\nS9030000FC";

const SECOND: &str = "S105101056780C\nS9030000FC";

const WHOLE: &str = "S1831000000102030405060708090A0B0C0D0E0F101112131415161718191A1B1C1D1E1F\
202122232425262728292A2B2C2D2E2F303132333435363738393A3B3C3D3E3F404142434445464748494A4B4C4D4E4F\
505152535455565758595A5B5C5D5E5F606162636465666768696A6B6C6D6E6F707172737475767778797A7B7C7D7E7FAC\n\
S9030000FC";
// Bytes for an EEPROM: at 16, at 32, at 63 and at 64.
const AT_16: &str = "S1060010AABBCCB8\nS9030000FC";

const AT_32: &str = "S1050020DDEE0F\nS9030000FC";

const AT_63: &str = "S104003F9923\nS9030000FC";

const AT_64: &str = "S10400409922\nS9030000FC";

// Bytes from an offset on; all others are 0xFF.
type Shown = &'static [(usize, &'static [u8])];

// A text that is loaded into a target of a size, and the report.
#[derive(Clone, Copy)]
struct Load(&'static str, u8, u64, [u64; 7]);

// A name, what is lost, loads on one board, one after the other, and what the flash, the EEPROM of the bootloader and that
// of the data show in the end.
#[derive(Clone, Copy)]
struct Case(
    &'static str,
    &'static [Outcome],
    &'static [Load],
    Shown,
    Shown,
    Shown,
);

#[test]
fn each_case(rt: HostRuntime) -> Result<(), Fail> {
    let setup = Setup {
        part_id: 2,
        ..BENCH.setup
    };
    let unlisted = Making { setup, ..BENCH };
    let without_room = Making { boot: 1, ..BENCH };
    check_cases(&rt, rt.alloc(), BENCH, &CASES)?;
    check_cases(&rt, rt.alloc(), unlisted, &ON_UNLISTED)?;
    check_cases(&rt, rt.alloc(), without_room, &WITHOUT_ROOM)
}

fn check_cases(rt: &impl Abort, heap: Global, making: Making, cases: &[Case]) -> Result<(), Fail> {
    for case in cases {
        check_case(rt, heap, making, *case)?;
    }
    Ok(())
}

fn check_case(rt: &impl Abort, heap: Global, making: Making, case: Case) -> Result<(), Fail> {
    let Case(name, table, loads, flash, boot, eeprom) = case;
    let mut wire = wire_to(heap, making, table)?.ok_or("a table too long")?;
    for (place, step) in loads.iter().enumerate() {
        let Load(text, target, size, expected) = *step;
        let report = load(&mut wire, text.as_bytes(), target, size);
        assert_eq!(rt; report.numbers(), expected, "{name}, load {place}");
    }
    let board = wire.into_device();
    check_shown(rt, heap, board.flash(), flash, name)?;
    check_shown(rt, heap, board.boot(), boot, name)?;
    check_shown(rt, heap, board.eeprom(), eeprom, name)
}

// What a part shows.
pub(crate) fn check_shown<P: ReadablePart>(
    rt: &impl Abort,
    heap: Global,
    part: &P,
    shown: &[(usize, &[u8])],
    name: &str,
) -> Result<(), Fail> {
    for (offset, byte) in read_all(heap, part)?.iter().enumerate() {
        assert_eq!(rt; *byte, shown_at(shown, offset), "{name}, offset {offset}");
    }
    Ok(())
}

fn shown_at(shown: &[(usize, &[u8])], offset: usize) -> u8 {
    for (start, bytes) in shown {
        if let Some(byte) = offset
            .checked_sub(*start)
            .and_then(|index| bytes.get(index))
        {
            return *byte;
        }
    }
    0xFF
}

// The code of each command of a load of one short record, up to the image checksum.
const COMMANDS: [u8; 9] = [0x01, 0x02, 0x13, 0x02, 0x10, 0x02, 0x03, 0x0E, 0x0E];

// A wire to the bench board on which so many exchanges are whole, and then some are not.
fn wire_losing(
    heap: Global,
    whole: usize,
    lost: &[Outcome],
) -> Result<TableWire<BlankBoard>, Fail> {
    let mut table = Vec::new(heap);
    table.resize(whole, Arrives)?;
    table.extend_from_slice(lost)?;
    Ok(wire_to(heap, BENCH, table.as_slice())?.ok_or("a table too long")?)
}

// The board shows the first word, and its seal.
fn check_first(rt: &impl Abort, heap: Global, wire: TableWire<BlankBoard>) -> Result<(), Fail> {
    let board = wire.into_device();
    check_shown(rt, heap, board.flash(), &[(0, &[0x12, 0x34])], "flash")?;
    check_shown(rt, heap, board.boot(), &[(62, &[0xC7, 0x0C])], "boot")
}

// Two losses at any command do no harm.
#[test]
fn two_losses_each(rt: HostRuntime) -> Result<(), Fail> {
    for first in [FrameLost, ReplyLost] {
        for second in [FrameLost, ReplyLost] {
            for place in 0..COMMANDS.len() {
                let mut wire = wire_losing(rt.alloc(), place, &[first, second])?;
                let report = load(&mut wire, FIRST.as_bytes(), 0, 0);
                assert_eq!(rt; report.numbers(), [0, 0, 0, 0, 12, 1, 1], "at {place}");
                check_first(&rt, rt.alloc(), wire)?;
            }
        }
    }
    Ok(())
}

// Three losses end a load with the command, without Disconnect. The next load fills the board all the same.
#[test]
fn three_losses_each(rt: HostRuntime) -> Result<(), Fail> {
    for lost in [FrameLost, ReplyLost] {
        for (place, command) in COMMANDS.into_iter().enumerate() {
            let mut wire = wire_losing(rt.alloc(), place, &[lost; 3])?;
            let report = load(&mut wire, FIRST.as_bytes(), 0, 0);
            let frames = (place as u64).wrapping_add(3);
            let sectors = u64::from(place > 4);
            assert_eq!(rt;
                report.numbers(),
                [13, 0, u64::from(command), 0, frames, sectors, 0],
                "at {place}"
            );
            let report = load(&mut wire, FIRST.as_bytes(), 0, 0);
            assert_eq!(rt; report.numbers(), [0, 0, 0, 0, 10, 1, 1], "after {place}");
            check_first(&rt, rt.alloc(), wire)?;
        }
    }
    Ok(())
}

// The longest table: 21 loads are silent, and the last loss is made good.
#[test]
fn all_lost(rt: HostRuntime) -> Result<(), Fail> {
    let mut wire = wire_losing(rt.alloc(), 0, &[FrameLost; 64])?;
    for _ in 0..21 {
        let report = load(&mut wire, FIRST.as_bytes(), 0, 0);
        assert_eq!(rt; report.numbers(), [13, 0, 1, 0, 3, 0, 0]);
    }
    let report = load(&mut wire, FIRST.as_bytes(), 0, 0);
    assert_eq!(rt; report.numbers(), [0, 0, 0, 0, 11, 1, 1]);
    Ok(())
}

const CASES: [Case; 19] = [
    Case(
        "nothing lost",
        &[],
        &[Load(FIRST, 0, 0, [0, 0, 0, 0, 10, 1, 1])],
        &[(0, &[0x12, 0x34])],
        &[(62, &[0xC7, 0x0C])],
        &[],
    ),
    // the application runs from the Disconnect on, and does not repeat its reply
    Case(
        "reply of Disconnect lost",
        &[
            Arrives, Arrives, Arrives, Arrives, Arrives, Arrives, Arrives, Arrives, Arrives,
            ReplyLost,
        ],
        &[Load(FIRST, 0, 0, [0, 0, 0, 0, 12, 1, 0])],
        &[(0, &[0x12, 0x34])],
        &[(62, &[0xC7, 0x0C])],
        &[],
    ),
    Case(
        "reply of Disconnect lost, without an application",
        &[
            Arrives, Arrives, Arrives, Arrives, Arrives, Arrives, Arrives, Arrives, Arrives,
            ReplyLost,
        ],
        &[Load(AT_16, 3, 64, [0, 0, 0, 0, 11, 1, 1])],
        &[],
        &[],
        &[(16, &[0xAA, 0xBB, 0xCC])],
    ),
    // the second Connect is the frame that the board has answered last
    Case(
        "Connect answered from the store",
        &[ReplyLost; 3],
        &[
            Load(FIRST, 0, 0, [13, 0, 1, 0, 3, 0, 0]),
            Load(FIRST, 0, 0, [0, 0, 0, 0, 10, 1, 1]),
        ],
        &[(0, &[0x12, 0x34])],
        &[(62, &[0xC7, 0x0C])],
        &[],
    ),
    Case(
        "application running",
        &[],
        &[
            Load(FIRST, 0, 0, [0, 0, 0, 0, 10, 1, 1]),
            Load(SECOND, 0, 0, [13, 0, 1, 0, 3, 0, 0]),
        ],
        &[(0, &[0x12, 0x34])],
        &[(62, &[0xC7, 0x0C])],
        &[],
    ),
    // the second load leaves the sector of the first one
    Case(
        "two sectors in two loads",
        &[
            Arrives, Arrives, Arrives, Arrives, Arrives, Arrives, Arrives, Arrives, Arrives,
            FrameLost, FrameLost, FrameLost,
        ],
        &[
            Load(FIRST, 0, 0, [0, 0, 0, 0, 12, 1, 0]),
            Load(SECOND, 0, 0, [0, 0, 0, 0, 10, 1, 1]),
        ],
        &[(0, &[0x12, 0x34]), (0x20, &[0x56, 0x78])],
        &[(62, &[0xC7, 0x0C])],
        &[],
    ),
    // the seal is that of a first word of 0xFFFF
    Case(
        "record in two sectors",
        &[],
        &[Load(
            "S107100F01020304CF\nS9030000FC",
            0,
            0,
            [0, 0, 0, 0, 10, 2, 1],
        )],
        &[(0x1E, &[1, 2, 3, 4])],
        &[(62, &[0, 0])],
        &[],
    ),
    Case(
        "records of 8, 2 and 12 bytes",
        &[],
        &[Load(
            "S10B10000102030405060708C0\nS20600101FA1A287\nS311000010304142434445464748494A4B4C60\nS9030000FC",
            0,
            0,
            [0, 0, 0, 0, 18, 3, 1],
        )],
        &[
            (0, &[1, 2, 3, 4, 5, 6, 7, 8]),
            (0x3E, &[0xA1, 0xA2]),
            (
                0x60,
                &[
                    0x41, 0x42, 0x43, 0x44, 0x45, 0x46, 0x47, 0x48, 0x49, 0x4A, 0x4B, 0x4C,
                ],
            ),
        ],
        &[(62, &[0xE1, 0x81])],
        &[],
    ),
    Case(
        "records without data",
        &[],
        &[Load(
            "S1031000EC\nS103FFFFFE\nS10510001234A4\nS1030000FC\nS9030000FC",
            0,
            0,
            [0, 0, 0, 0, 10, 1, 1],
        )],
        &[(0, &[0x12, 0x34])],
        &[(62, &[0xC7, 0x0C])],
        &[],
    ),
    Case(
        "lines outside",
        &[],
        &[
            Load("S1050FFF1234A6\nS9030000FC", 0, 0, [10, 1, 0, 0, 2, 0, 1]),
            Load("S1051040123464\nS9030000FC", 0, 0, [10, 1, 0, 0, 2, 0, 1]),
            Load(
                "S107103F010203049F\nS9030000FC",
                0,
                0,
                [10, 1, 0, 0, 2, 0, 1],
            ),
            // two of them
            Load(
                "S0030000FC\nS10510001234A4\nS10510400102A7\nS10520000102D7\nS9030000FC",
                0,
                0,
                [10, 3, 0, 0, 2, 0, 1],
            ),
            // an EEPROM has the bytes that are told
            Load(AT_64, 3, 64, [10, 1, 0, 0, 2, 0, 1]),
            Load(AT_16, 2, 16, [10, 1, 0, 0, 2, 0, 1]),
            Load(AT_16, 2, 18, [10, 1, 0, 0, 2, 0, 1]),
        ],
        &[],
        &[],
        &[],
    ),
    // Clear leaves nothing of the first load
    Case(
        "EEPROM of the bootloader",
        &[],
        &[
            Load(AT_16, 2, 64, [0, 0, 0, 0, 10, 1, 1]),
            Load(AT_32, 2, 64, [0, 0, 0, 0, 10, 1, 1]),
        ],
        &[],
        &[(32, &[0xDD, 0xEE])],
        &[],
    ),
    Case(
        "EEPROM of the data",
        &[],
        &[
            Load(AT_63, 3, 64, [0, 0, 0, 0, 10, 1, 1]),
            Load(AT_16, 3, 19, [0, 0, 0, 0, 10, 1, 1]),
        ],
        &[],
        &[],
        &[(16, &[0xAA, 0xBB, 0xCC])],
    ),
    // the size that is told is not that of the board: a Download is refused
    Case(
        "EEPROM shorter than told",
        &[],
        &[
            Load(AT_64, 3, 65, [12, 0, 0x03, 0x32, 8, 1, 1]),
            Load(
                "S10A003C010203040506079D\nS9030000FC",
                3,
                100,
                [12, 0, 0x23, 0x32, 8, 1, 1],
            ),
        ],
        &[],
        &[],
        &[],
    ),
    Case(
        "targets that are refused",
        &[],
        &[
            Load(FIRST, 1, 64, [1, 0, 0, 0, 0, 0, 0]),
            Load(FIRST, 4, 64, [1, 0, 0, 0, 0, 0, 0]),
            Load(AT_16, 2, 0, [1, 0, 0, 0, 0, 0, 0]),
            Load(AT_16, 3, 1_048_577, [1, 0, 0, 0, 0, 0, 0]),
        ],
        &[],
        &[],
        &[],
    ),
    Case(
        "lines that are refused",
        &[],
        &[
            Load(
                "S10510001234A4\nX10510001234A4",
                0,
                0,
                [3, 2, 0, 0, 0, 0, 0],
            ),
            Load("S10510001234A5\nS9030000FC", 0, 0, [4, 1, 0, 0, 0, 0, 0]),
            Load(
                "S10510001234A4\nS9030000FC\nS105101056780C",
                0,
                0,
                [5, 3, 0, 0, 0, 0, 0],
            ),
            Load(
                "S10510001234A4\nS5030002FA\nS9030000FC",
                0,
                0,
                [6, 2, 0, 0, 0, 0, 0],
            ),
            Load(
                "S10510001234A4\nS10510001234A4\nS9030000FC",
                0,
                0,
                [7, 2, 0, 0, 0, 0, 0],
            ),
            Load("S10610001234564D\nS9030000FC", 0, 0, [8, 1, 0, 0, 0, 0, 0]),
        ],
        &[],
        &[],
        &[],
    ),
    Case(
        "texts that are refused",
        &[],
        &[
            Load("S10510001234A4", 0, 0, [5, 0, 0, 0, 0, 0, 0]),
            Load("S9030000FC", 0, 0, [9, 0, 0, 0, 0, 0, 0]),
        ],
        &[],
        &[],
        &[],
    ),
    Case(
        "size told of the flash",
        &[],
        &[Load(FIRST, 0, 1, [0, 0, 0, 0, 10, 1, 1])],
        &[(0, &[0x12, 0x34])],
        &[(62, &[0xC7, 0x0C])],
        &[],
    ),
    // what an EEPROM load leaves in the flash is blank, so the board waits for a host and answers again
    Case(
        "target after target",
        &[FrameLost, ReplyLost],
        &[
            Load(AT_32, 3, 64, [0, 0, 0, 0, 12, 1, 1]),
            Load(AT_16, 2, 64, [0, 0, 0, 0, 10, 1, 1]),
            Load(FIRST, 0, 0, [0, 0, 0, 0, 10, 1, 1]),
        ],
        &[(0, &[0x12, 0x34])],
        &[(16, &[0xAA, 0xBB, 0xCC]), (62, &[0xC7, 0x0C])],
        &[(32, &[0xDD, 0xEE])],
    ),
    Case(
        "whole flash",
        &[],
        &[Load(WHOLE, 0, 0, [0, 0, 0, 0, 31, 4, 1])],
        &[(
            0,
            &[
                0, 1, 2, 3, 4, 5, 6, 7, 8, 9, 10, 11, 12, 13, 14, 15, 16, 17, 18, 19, 20, 21, 22,
                23, 24, 25, 26, 27, 28, 29, 30, 31, 32, 33, 34, 35, 36, 37, 38, 39, 40, 41, 42, 43,
                44, 45, 46, 47, 48, 49, 50, 51, 52, 53, 54, 55, 56, 57, 58, 59, 60, 61, 62, 63, 64,
                65, 66, 67, 68, 69, 70, 71, 72, 73, 74, 75, 76, 77, 78, 79, 80, 81, 82, 83, 84, 85,
                86, 87, 88, 89, 90, 91, 92, 93, 94, 95, 96, 97, 98, 99, 100, 101, 102, 103, 104,
                105, 106, 107, 108, 109, 110, 111, 112, 113, 114, 115, 116, 117, 118, 119, 120,
                121, 122, 123, 124, 125, 126, 127,
            ],
        )],
        &[(62, &[0x70, 0xC0])],
        &[],
    ),
];

const ON_UNLISTED: [Case; 1] = [Case(
    "unlisted board",
    &[],
    // the second line is also outside
    &[
        Load(FIRST, 0, 0, [11, 0, 0, 0, 2, 0, 1]),
        Load(AT_64, 3, 64, [11, 0, 0, 0, 2, 0, 1]),
    ],
    &[],
    &[],
    &[],
)];

const WITHOUT_ROOM: [Case; 1] = [Case(
    "no room for the seal",
    &[],
    &[Load(FIRST, 0, 0, [12, 0, 0x0E, 0x36, 10, 1, 1])],
    &[(0, &[0x12, 0x34])],
    &[],
    &[],
)];
