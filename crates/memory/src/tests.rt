// The parts at the edges of each rule, values of the CRC and the seal from outside, and that the calls that
// take memory succeed.
ghost use Rattle.std.proofs.Common.{arith, rules};

use crate::PartRefusal::{NoSuchUnit, NotTaken, Outside};
use crate::{
    Action, Answer, CRC_START, Crossing, Eeprom, Flash, PartRefusal, ReadablePart, WritablePart,
    crc_byte, crc_over, exercise, read_all, seal, seal_is_valid, stored_seal, uncross,
};
use std::alloc::{AllocError, Global};
use std::process::Abort;
use std::test::Fail;

// Which part is made over a buffer.
#[derive(Clone, Copy)]
enum Kind {
    Flash { sectors: usize, words: usize },
    Eeprom,
    CrossedFlash { sectors: usize, words: usize },
    CrossedEeprom,
}

// A part, and calls of it in their order with what each must answer; and what the part must hold after the
// puts and after the clears.
#[derive(Clone, Copy)]
struct Case {
    kind: Kind,
    buffer: &'static [u8],
    reads: &'static [(usize, Result<u8, PartRefusal>)],
    questions: &'static [(usize, u8, Result<bool, PartRefusal>)],
    puts: &'static [(usize, u8, Result<(), PartRefusal>)],
    after_puts: &'static [u8],
    clears: &'static [(usize, Result<(), PartRefusal>)],
    after_clears: &'static [u8],
}

fn check_calls<P: WritablePart>(
    rt: &impl Abort,
    heap: Global,
    part: &mut P,
    case: Case,
) -> Result<(), Fail> {
    for (offset, answer) in case.reads {
        assert_eq!(rt; part.read(*offset), *answer, "read at {offset}");
    }
    for (offset, value, answer) in case.questions {
        assert_eq!(rt;
            part.question(*offset, *value),
            *answer,
            "question of {value} at {offset}"
        );
    }
    for (offset, value, answer) in case.puts {
        assert_eq!(rt;
            part.put(*offset, *value),
            *answer,
            "put of {value} at {offset}"
        );
    }
    assert_eq!(rt; read_all(heap, part)?.as_slice(), case.after_puts);
    for (unit, answer) in case.clears {
        assert_eq!(rt; part.clear(*unit), *answer, "clear of {unit}");
    }
    assert_eq!(rt; read_all(heap, part)?.as_slice(), case.after_clears);
    Ok(())
}

fn check_case(rt: &impl Abort, heap: Global, case: Case) -> Result<(), Fail> {
    let buffer = case.buffer.to_vec(heap)?;
    match case.kind {
        Kind::Flash { sectors, words } => {
            check_calls(rt, heap, &mut Flash::new(buffer, sectors, words), case)
        }
        Kind::Eeprom => check_calls(rt, heap, &mut Eeprom::new(buffer), case),
        Kind::CrossedFlash { sectors, words } => {
            let flash = Flash::new(buffer, sectors, words);
            check_calls(rt, heap, &mut Crossing::new(flash), case)
        }
        Kind::CrossedEeprom => {
            check_calls(rt, heap, &mut Crossing::new(Eeprom::new(buffer)), case)
        }
    }
}

#[test]
fn each_call(rt: HostRuntime) -> Result<(), Fail> {
    for case in CASES {
        check_case(&rt, rt.alloc(), case)?;
    }
    Ok(())
}

// A part of no bytes has a unit all the same.
const NOTHING: Case = Case {
    kind: Kind::Eeprom,
    buffer: &[],
    reads: &[(0, Err(Outside))],
    questions: &[(0, 0xFF, Err(Outside))],
    puts: &[(0, 0xFF, Err(Outside))],
    after_puts: &[],
    clears: &[(0, Ok(())), (1, Err(NoSuchUnit))],
    after_clears: &[],
};

const CASES: [Case; 7] = [
    // two sectors of one word, and a byte of the buffer that belongs to none
    Case {
        kind: Kind::Flash {
            sectors: 2,
            words: 1,
        },
        buffer: &[0x12, 0x34, 0x56, 0xF0, 0xEE],
        reads: &[(0, Ok(0x12)), (3, Ok(0xF0)), (4, Err(Outside))],
        questions: &[
            (3, 0x30, Ok(true)),
            (3, 0x31, Ok(false)),
            (4, 0xFF, Err(Outside)),
        ],
        puts: &[
            (3, 0x31, Err(NotTaken)),
            (3, 0x30, Ok(())),
            (3, 0x30, Ok(())),
            (4, 0x00, Err(Outside)),
        ],
        after_puts: &[0x12, 0x34, 0x56, 0x30],
        clears: &[(2, Err(NoSuchUnit)), (1, Ok(()))],
        after_clears: &[0xFF, 0xFF, 0x56, 0x30],
    },
    // bits of an EEPROM can be set
    Case {
        kind: Kind::Eeprom,
        buffer: &[0x12, 0x34, 0x56],
        reads: &[(0, Ok(0x12)), (2, Ok(0x56)), (3, Err(Outside))],
        questions: &[(2, 0xFF, Ok(true)), (3, 0xFF, Err(Outside))],
        puts: &[(2, 0xFF, Ok(())), (3, 0xFF, Err(Outside))],
        after_puts: &[0x12, 0x34, 0xFF],
        clears: &[(1, Err(NoSuchUnit))],
        after_clears: &[0x12, 0x34, 0xFF],
    },
    // the rule is that of the byte that is there
    Case {
        kind: Kind::CrossedFlash {
            sectors: 1,
            words: 2,
        },
        buffer: &[0x12, 0x34, 0x0F, 0xF0],
        reads: &[
            (0, Ok(0x34)),
            (1, Ok(0x12)),
            (3, Ok(0x0F)),
            (4, Err(Outside)),
        ],
        questions: &[
            (3, 0x0E, Ok(true)),
            (3, 0x30, Ok(false)),
            (4, 0xFF, Err(Outside)),
        ],
        puts: &[
            (3, 0x30, Err(NotTaken)),
            (3, 0x0E, Ok(())),
            (4, 0x00, Err(Outside)),
        ],
        after_puts: &[0x34, 0x12, 0xF0, 0x0E],
        clears: &[(1, Err(NoSuchUnit)), (0, Ok(()))],
        after_clears: &[0xFF, 0xFF, 0xFF, 0xFF],
    },
    // the last offset of an odd number has no other one to change with
    Case {
        kind: Kind::CrossedEeprom,
        buffer: &[0x12, 0x34, 0x56],
        reads: &[
            (0, Ok(0x34)),
            (1, Ok(0x12)),
            (2, Ok(0x56)),
            (3, Err(Outside)),
        ],
        questions: &[(2, 0x00, Ok(true)), (3, 0x00, Err(Outside))],
        puts: &[
            (1, 0xA1, Ok(())),
            (2, 0xA2, Ok(())),
            (3, 0x00, Err(Outside)),
        ],
        after_puts: &[0x34, 0xA1, 0xA2],
        clears: &[(1, Err(NoSuchUnit))],
        after_clears: &[0x34, 0xA1, 0xA2],
    },
    // a flash that the buffer has no room for
    Case {
        kind: Kind::Flash {
            sectors: 1,
            words: 1,
        },
        buffer: &[0x12],
        ..NOTHING
    },
    // an EEPROM of no bytes, and the same crossed
    NOTHING,
    Case {
        kind: Kind::CrossedEeprom,
        ..NOTHING
    },
];

// Bytes of a buffer, sectors, and words of each; and the length and the units of the flash over it.
const FLASHES: [(usize, usize, usize, usize, usize); 13] = [
    (4, 1, 2, 4, 1),
    (3, 1, 2, 0, 1),
    (9, 2, 2, 8, 2),
    (9, 2, 0, 0, 2),
    (64, 0, 1, 0, 1),
    (64, 32, 1, 64, 32),
    (63, 32, 1, 0, 1),
    (66, 33, 1, 0, 1),
    (1_048_576, 1, 524_288, 1_048_576, 1),
    (1_048_578, 32, 16_384, 1_048_576, 32),
    (1_048_578, 1, 524_289, 0, 1),
    (4, 1, usize::MAX, 0, 1),
    (4, usize::MAX, 2, 0, 1),
];

// Bytes of a buffer, and the length of the EEPROM over it.
const EEPROMS: [(usize, usize); 4] = [
    (0, 0),
    (1, 1),
    (1_048_576, 1_048_576),
    (1_048_577, 1_048_576),
];

#[test]
fn sizes(rt: HostRuntime) -> Result<(), Fail> {
    let heap = rt.alloc();
    for (buffer, sectors, words, len, units) in FLASHES {
        let mut flash = Flash::new(Vec::from_elem(heap, 0, buffer)?, sectors, words);
        check_size(&rt, heap, &mut flash, len, units)?;
    }
    for (buffer, len) in EEPROMS {
        let mut eeprom = Eeprom::new(Vec::from_elem(heap, 0, buffer)?);
        check_size(&rt, heap, &mut eeprom, len, 1)?;
    }
    Ok(())
}

// A part whose bytes are 0, by its bytes and its answers at the last offset and unit and past them.
fn check_size<P: WritablePart>(
    rt: &impl Abort,
    heap: Global,
    part: &mut P,
    len: usize,
    units: usize,
) -> Result<(), Fail> {
    assert_eq!(rt; (part.len(), part.units()), (len, units));
    assert_eq!(rt; read_all(heap, part)?, Vec::from_elem(heap, 0, len)?);
    if let Some(last) = len.checked_sub(1) {
        assert_eq!(rt; part.read(last), Ok(0));
    }
    assert_eq!(rt; part.read(len), Err(Outside));
    if let Some(last) = units.checked_sub(1) {
        assert_eq!(rt; part.clear(last), Ok(()));
    }
    assert_eq!(rt; part.clear(units), Err(NoSuchUnit));
    if len > 0 {
        // The last unit is the lowest.
        assert_eq!(rt; part.read(0), Ok(0xFF));
    }
    Ok(())
}

#[test]
fn script(rt: HostRuntime) -> Result<(), Fail> {
    let heap = rt.alloc();
    let mut flash = Flash::new([0x12, 0x34, 0x56, 0x78].to_vec(heap)?, 2, 1);
    let actions = [
        Action::Clear { unit: 0 },
        Action::Put {
            offset: 3,
            value: 0x9A,
        },
        Action::Question {
            offset: 3,
            value: 0x9B,
        },
        Action::Put {
            offset: 3,
            value: 0x9B,
        },
        Action::Read { offset: 3 },
        Action::Read { offset: 4 },
    ];
    let answers = exercise(heap, &mut flash, &actions)?;
    let wanted = [
        Ok(Answer::Done),
        Ok(Answer::Done),
        Ok(Answer::Taken(false)),
        Err(NotTaken),
        Ok(Answer::Byte(0x9A)),
        Err(Outside),
    ];
    assert_eq!(rt; answers.as_slice(), wanted.as_slice());
    assert_eq!(rt;
        read_all(heap, &flash)?.as_slice(),
        [0x12, 0x34, 0xFF, 0x9A].as_slice()
    );
    Ok(())
}

// Crossing twice is the part itself: what is put through both lies where it was put.
#[test]
fn crossed_twice(rt: HostRuntime) -> Result<(), Fail> {
    let heap = rt.alloc();
    let mut twice = Crossing::new(Crossing::new(Eeprom::new([1, 2, 3].to_vec(heap)?)));
    assert_eq!(rt; read_all(heap, &twice)?.as_slice(), [1, 2, 3].as_slice());
    assert_eq!(rt; twice.put(1, 9), Ok(()));
    assert_eq!(rt;
        read_all(heap, &uncross(twice))?.as_slice(),
        [1, 9, 3].as_slice()
    );
    Ok(())
}

#[test]
fn refusal_numbers(rt: HostRuntime) {
    let numbers = [Outside.number(), NotTaken.number(), NoSuchUnit.number()];
    assert_eq!(rt; numbers, [1, 2, 3]);
}

// Bytes that are 0, 1 and so on, and again 0 after 250.
fn counted(heap: Global, len: usize) -> Result<Vec<u8>, AllocError> {
    (0..len).map(|place| (place % 251) as u8).collect(heap)
}

// Lengths of counted bytes, and the CRC over them: at a step of eight bytes, one less and one more.
const CRCS: [(usize, u16); 9] = [
    (0, 0xFFFF),
    (1, 0x40BF),
    (7, 0xC6A1),
    (8, 0x7A46),
    (9, 0x34FA),
    (15, 0x757A),
    (16, 0xE7B4),
    (17, 0xBBE6),
    (1024, 0x1A58),
];

#[test]
fn crcs(rt: HostRuntime) -> Result<(), Fail> {
    // the check value of this CRC in the catalogues
    assert_eq!(rt; crc_over(CRC_START, b"123456789"), 0x4B37);
    assert_eq!(rt; crc_over(CRC_START, &[0x12, 0x34]), 0xC70C);
    assert_eq!(rt; crc_over(0x0001, &[0x12, 0x34]), 0xE70C);
    assert_eq!(rt; crc_byte(crc_byte(CRC_START, 0x12), 0x34), 0xC70C);
    for (len, crc) in CRCS {
        let bytes = counted(rt.alloc(), len)?;
        assert_eq!(rt;
            crc_over(CRC_START, bytes.as_slice()),
            crc,
            "over {len} bytes"
        );
    }
    Ok(())
}

// A part that can be read alone, of two bytes an address and of any length.
#[derive(Drop)]
struct Words {
    below: Eeprom,
}

impl ReadablePart for Words {
    const BYTES_PER_ADDRESS: usize = 2;

    ghost BYTES_PER_ADDRESS = { 2 };

    ghost contents = { λ w. w.below.cells.bytes.items };

    ghost widths = { Prim.search rules };

    ghost limited = { λ w. omega (arith, w.below.cells.limited) };

    fn len(&self) -> usize {
        self.below.len()
    }

    fn read(&self, offset: usize) -> Result<u8, PartRefusal> {
        self.below.read(offset)
    }
}

// Lengths of counted bytes, with their seal at one byte an address and at two, and the same crossed. At two,
// address 128 begins at 256 and is whole from 258 on.
const SEALS: [(usize, [u16; 4]); 11] = [
    (0, [0xFFFF, 0xFFFF, 0xFFFF, 0xFFFF]),
    (1, [0x40BF, 0xFFFF, 0x40BF, 0xFFFF]),
    (2, [0x40BF, 0x70C0, 0x807E, 0x2000]),
    (128, [0x40BF, 0x70C0, 0x807E, 0x2000]),
    (129, [0x1000, 0x70C0, 0x8001, 0x2000]),
    (256, [0x1000, 0x70C0, 0x40C0, 0x2000]),
    (257, [0x03D0, 0x70C0, 0x5380, 0x2000]),
    (258, [0x03D0, 0xB6D2, 0x52C0, 0x7BC2]),
    (512, [0x3FC3, 0xB6D2, 0xF2D3, 0x7BC2]),
    (513, [0x56FF, 0xB6D2, 0x9A33, 0x7BC2]),
    (514, [0x56FF, 0x719A, 0x5AF2, 0x7496]),
];

#[test]
fn seals(rt: HostRuntime) -> Result<(), Fail> {
    for (len, [one, two, one_crossed, two_crossed]) in SEALS {
        let bytes = Eeprom::new(counted(rt.alloc(), len)?);
        check_seals(&rt, bytes, one, one_crossed);
        let below = Eeprom::new(counted(rt.alloc(), len)?);
        check_seals(&rt, Words { below }, two, two_crossed);
    }
    Ok(())
}

fn check_seals<P: ReadablePart + Drop>(rt: &impl Abort, part: P, wanted: u16, crossed: u16) {
    assert_eq!(rt; seal(&part), wanted, "over {} bytes", part.len());
    assert_eq!(rt; seal(&Crossing::new(part)), crossed);
}

// The bytes of a store, the seal that it has, and whether that is the one of the bytes 12 34.
const STORES: [(&'static [u8], Option<u16>, bool); 6] = [
    (&[], None, false),
    (&[0x0C], None, false),
    (&[0xC7, 0x0C], Some(0xC70C), true),
    (&[0x0C, 0xC7], Some(0x0CC7), false),
    (&[0xAA, 0xC7, 0x0C], Some(0xC70C), true),
    (&[0xC7, 0x0C, 0xAA], Some(0x0CAA), false),
];

#[test]
fn stores(rt: HostRuntime) -> Result<(), Fail> {
    let heap = rt.alloc();
    let flash = Flash::new([0x12, 0x34].to_vec(heap)?, 1, 1);
    for (bytes, stored, valid) in STORES {
        let store = Eeprom::new(bytes.to_vec(heap)?);
        assert_eq!(rt; stored_seal(&store), stored, "{bytes:?}");
        assert_eq!(rt; seal_is_valid(&flash, &store), valid, "{bytes:?}");
    }
    // A flash of no bytes has a seal too, and a store of blank bytes has that one.
    let nothing = Flash::new(Vec::new(heap), 1, 1);
    assert_eq!(rt;
        seal_is_valid(&nothing, &Eeprom::new([0xFF, 0xFF].to_vec(heap)?)),
        true
    );
    Ok(())
}
