// The boards that are listed: where the flash begins, and its sectors.
ghost use Rattle.std.specs.Prelude.{◌≡◌, IfSome};
ghost use Rattle.geometry.specs.Rows.{row_of, is_listed, row_in, IsRow};

/// What the part ID of a board says of its flash.
#[derive(Clone, Copy, PartialEq, Eq, Debug)]
pub struct Row {
    /// the address of its first word
    pub base: u32,
    /// 1 to 8 sectors
    pub sectors: u32,
    /// the words of each, 1 to 0x8000 of two bytes
    pub words: u32,
}

// Part IDs that follow on one another, and have one row.
struct Listed {
    first: u16,
    last: u16,
    row: Row,
}

const LISTED: [Listed; 10] = [
    Listed {
        first: 0x2C,
        last: 0x2C,
        row: Row {
            base: 0x3F_4000,
            sectors: 4,
            words: 0x1000,
        },
    },
    Listed {
        first: 0x24,
        last: 0x24,
        row: Row {
            base: 0x3F_0000,
            sectors: 4,
            words: 0x2000,
        },
    },
    Listed {
        first: 0x34,
        last: 0x34,
        row: Row {
            base: 0x3F_0000,
            sectors: 4,
            words: 0x2000,
        },
    },
    Listed {
        first: 0x3C,
        last: 0x3C,
        row: Row {
            base: 0x3E_8000,
            sectors: 4,
            words: 0x4000,
        },
    },
    Listed {
        first: 0xFE,
        last: 0xFE,
        row: Row {
            base: 0x3D_8000,
            sectors: 8,
            words: 0x4000,
        },
    },
    Listed {
        first: 0x9C,
        last: 0x9F,
        row: Row {
            base: 0x3D_8000,
            sectors: 8,
            words: 0x4000,
        },
    },
    Listed {
        first: 0xED,
        last: 0xED,
        row: Row {
            base: 0x33_0000,
            sectors: 4,
            words: 0x4000,
        },
    },
    Listed {
        first: 0xEE,
        last: 0xEE,
        row: Row {
            base: 0x32_0000,
            sectors: 8,
            words: 0x4000,
        },
    },
    Listed {
        first: 0xEF,
        last: 0xEF,
        row: Row {
            base: 0x30_0000,
            sectors: 8,
            words: 0x8000,
        },
    },
    Listed {
        first: 0x01,
        last: 0x01,
        row: Row {
            base: 0x1000,
            sectors: 4,
            words: 0x10,
        },
    },
];

impl Listed {
    fn has(&self, part_id: u16) -> bool
        ensures { result ≡ is_listed self.now.first self.now.last part_id }
    {
        self.first <= part_id && part_id <= self.last
    }
}

/// The row of a part ID; there are part IDs without one.
pub fn row_of(part_id: u16) -> Option<Row>
    ensures answer { result ≡ row_of part_id }
    ensures lawful { IfSome result IsRow }
{
    find_row(&LISTED, part_id)
}

// The first row in a list that a part ID has.
fn find_row(listed: &[Listed], part_id: u16) -> Option<Row>
    ensures { result ≡ row_in listed.now part_id }
{
    for entry in listed {
        if entry.has(part_id) {
            return Some(entry.row);
        }
    }
    None
}
