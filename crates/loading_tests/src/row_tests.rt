// Loads into the flash of each listed board, at its edges; and longer texts.
use crate::tests::check_shown;
use crate::{BENCH, Making, wire_to};
use bootloader::Setup;
use link::Outcome;
use loading::load;
use std::alloc::Global;
use std::process::Abort;
use std::test::Fail;

// The part ID of each listed board, the address of the first word, and the sectors with the words of each.
const ROWS: [(u16, u32, u8, u16); 13] = [
    (0x2C, 0x3F_4000, 4, 0x1000),
    (0x24, 0x3F_0000, 4, 0x2000),
    (0x34, 0x3F_0000, 4, 0x2000),
    (0x3C, 0x3E_8000, 4, 0x4000),
    (0xFE, 0x3D_8000, 8, 0x4000),
    (0x9C, 0x3D_8000, 8, 0x4000),
    (0x9D, 0x3D_8000, 8, 0x4000),
    (0x9E, 0x3D_8000, 8, 0x4000),
    (0x9F, 0x3D_8000, 8, 0x4000),
    (0xED, 0x33_0000, 4, 0x4000),
    (0xEE, 0x32_0000, 8, 0x4000),
    (0xEF, 0x30_0000, 8, 0x8000),
    (0x01, 0x1000, 4, 0x10),
];

#[test]
fn each_row(rt: HostRuntime) -> Result<(), Fail> {
    for (part_id, base, sectors, words) in ROWS {
        let setup = Setup {
            base,
            part_id,
            ..BENCH.setup
        };
        let making = Making {
            setup,
            sectors,
            words,
            ..BENCH
        };
        check_row(&rt, rt.alloc(), making)?;
    }
    Ok(())
}

// One word before the flash and one behind it lie outside; the first and the last one are loaded.
fn check_row(rt: &impl Abort, heap: Global, making: Making) -> Result<(), Fail> {
    let name = format!(in heap; "part ID {:#x}", making.setup.part_id)?;
    let first = making.setup.base;
    let words = u32::from(making.sectors) * u32::from(making.words);
    let last = first.wrapping_add(words).wrapping_sub(1);
    let mut wire = wire_to(heap, making, &[])?.ok_or("a table too long")?;
    for address in [first.wrapping_sub(1), last.wrapping_add(1)] {
        let text = text_of(heap, &[(address, &[0x12, 0x34])])?;
        let report = load(&mut wire, text.as_bytes(), 0, 0);
        assert_eq!(rt;
            report.numbers(),
            [10, 1, 0, 0, 2, 0, 1],
            "{name}, {address:#x}"
        );
    }
    let text = text_of(heap, &[(first, &[0x12, 0x34]), (last, &[0x56, 0x78])])?;
    let report = load(&mut wire, text.as_bytes(), 0, 0);
    assert_eq!(rt; report.numbers(), [0, 0, 0, 0, 13, 2, 1], "{name}");
    let board = wire.into_device();
    let end = (words as usize).wrapping_mul(2).wrapping_sub(2);
    let shown: [(usize, &[u8]); 2] = [(0, &[0x12, 0x34]), (end, &[0x56, 0x78])];
    check_shown(rt, heap, board.flash(), &shown, name.as_str())
}

// A text with bytes at these addresses.
fn text_of(heap: Global, records: &[(u32, &[u8])]) -> Result<String, Fail> {
    let mut text = String::new(heap);
    for (address, bytes) in records {
        push_line(heap, &mut text, *address, bytes)?;
    }
    text.push_str("S9030000FC\n")?;
    Ok(text)
}

// A data line with its count and its checksum.
fn push_line(heap: Global, text: &mut String, address: u32, bytes: &[u8]) -> Result<(), Fail> {
    let count = u8::try_from(bytes.len())
        .map_err(|_| "a line too long")?
        .wrapping_add(5);
    let mut sum = count;
    for byte in address.to_be_bytes() {
        sum = sum.wrapping_add(byte);
    }
    text.push_str(format!(in heap; "S3{count:02X}{address:08X}")?.as_str())?;
    for byte in bytes {
        sum = sum.wrapping_add(*byte);
        text.push_str(format!(in heap; "{byte:02X}")?.as_str())?;
    }
    text.push_str(format!(in heap; "{:02X}\n", !sum)?.as_str())?;
    Ok(())
}

// 128 records of one byte: the counters of the frames begin again at 0.
#[test]
fn many_frames(rt: HostRuntime) -> Result<(), Fail> {
    let making = Making {
        eeprom: 128,
        ..BENCH
    };
    let mut wire = wire_to(rt.alloc(), making, &[])?.ok_or("a table too long")?;
    let mut text = String::new(rt.alloc());
    for place in 0u8..128 {
        push_line(rt.alloc(), &mut text, u32::from(place), &[place ^ 0x55])?;
    }
    text.push_str("S9030000FC\n")?;
    let report = load(&mut wire, text.as_bytes(), 3, 128);
    assert_eq!(rt; report.numbers(), [0, 0, 0, 0, 391, 1, 1]);
    let mut expected = Vec::new(rt.alloc());
    for place in 0u8..128 {
        expected.push(place ^ 0x55)?;
    }
    let board = wire.into_device();
    check_shown(
        &rt,
        rt.alloc(),
        board.eeprom(),
        &[(0, expected.as_slice())],
        "EEPROM",
    )
}

// The longest text, and one that is longer; and a table that is longer than a wire has.
#[test]
fn limits(rt: HostRuntime) -> Result<(), Fail> {
    let mut wire = wire_to(rt.alloc(), BENCH, &[])?.ok_or("a table too long")?;
    for (length, outcome, line) in [(4_194_304, 3, 1), (4_194_305, 2, 0)] {
        let text = Vec::from_elem(rt.alloc(), b'S', length)?;
        let report = load(&mut wire, text.as_slice(), 0, 0);
        assert_eq!(rt; report.numbers(), [outcome, line, 0, 0, 0, 0, 0]);
    }
    assert!(rt; wire_to(rt.alloc(), BENCH, &[Outcome::Arrives; 65])?.is_none());
    Ok(())
}
