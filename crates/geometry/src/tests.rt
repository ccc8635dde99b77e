// Every row at its edges: the part IDs that it has, and those around them.
use crate::{Row, row_of};
use std::test::Fail;

// Part IDs from the first on and below the end, with what each of them has: base, sectors and words.
#[derive(Clone, Copy)]
struct Case {
    first: u16,
    end: u16,
    row: Option<(u32, u32, u32)>,
}

const fn listed(first: u16, end: u16, base: u32, sectors: u32, words: u32) -> Case {
    Case {
        first,
        end,
        row: Some((base, sectors, words)),
    }
}

const fn without(first: u16, end: u16) -> Case {
    Case {
        first,
        end,
        row: None,
    }
}

// All part IDs but the highest one.
#[test]
fn each_part_id(rt: HostRuntime) -> Result<(), Fail> {
    let cases = [
        without(0x00, 0x01),
        listed(0x01, 0x02, 0x1000, 4, 16),
        without(0x02, 0x24),
        listed(0x24, 0x25, 0x3F_0000, 4, 0x2000),
        without(0x25, 0x2C),
        listed(0x2C, 0x2D, 0x3F_4000, 4, 0x1000),
        without(0x2D, 0x34),
        listed(0x34, 0x35, 0x3F_0000, 4, 0x2000),
        without(0x35, 0x3C),
        listed(0x3C, 0x3D, 0x3E_8000, 4, 0x4000),
        without(0x3D, 0x9C),
        listed(0x9C, 0xA0, 0x3D_8000, 8, 0x4000),
        without(0xA0, 0xED),
        listed(0xED, 0xEE, 0x33_0000, 4, 0x4000),
        listed(0xEE, 0xEF, 0x32_0000, 8, 0x4000),
        listed(0xEF, 0xF0, 0x30_0000, 8, 0x8000),
        without(0xF0, 0xFE),
        listed(0xFE, 0xFF, 0x3D_8000, 8, 0x4000),
        without(0xFF, 0xFFFF),
    ];
    for case in cases {
        for part_id in case.first..case.end {
            let row = case.row.map(|(base, sectors, words)| Row {
                base,
                sectors,
                words,
            });
            assert_eq!(rt; row_of(part_id), row, "part ID {part_id}");
        }
    }
    Ok(())
}
