// The file check at the edges of each outcome.
use crate::{MAX_TEXT, Refusal, check_file, outcome};
use std::alloc::{AllocError, Global};
use std::test::Fail;

// A text for a target, with the outcome and the line that the check must report.
#[derive(Clone, Copy)]
struct Case {
    text: &'static [u8],
    target: u8,
    size: u64,
    outcome: u8,
    line: usize,
}

// The outcome and the line of a verdict.
fn reported(verdict: Result<(), Refusal>) -> (u8, usize) {
    let line = verdict.err().and_then(|refusal| refusal.line);
    (outcome(verdict), line.unwrap_or(0))
}

#[test]
fn outcomes(rt: HostRuntime) {
    for (place, case) in CASES.iter().enumerate() {
        let verdict = check_file(case.text, case.target, case.size);
        assert_eq!(rt;
            (place, reported(verdict)),
            (place, (case.outcome, case.line))
        );
    }
}

// A text of so many data lines, the first of them with data, a count line if any, and an end line.
fn many_lines(heap: Global, lines: u32, count: &[u8]) -> Result<Vec<u8>, AllocError> {
    let mut text = Vec::new(heap);
    text.extend_from_slice(b"S10510001234A4\n")?;
    for _ in 1..lines {
        text.extend_from_slice(b"S1030000FC\n")?;
    }
    text.extend_from_slice(count)?;
    text.extend_from_slice(b"S9030000FC\n")?;
    Ok(text)
}

// A count holds at most 65,535, and is not reduced.
#[test]
fn many_records(rt: HostRuntime) -> Result<(), Fail> {
    let most = many_lines(rt.alloc(), 65_535, b"S503FFFFFE\n")?;
    assert_eq!(rt; reported(check_file(most.as_slice(), 0, 0)), (0, 0));
    let uncounted = many_lines(rt.alloc(), 65_536, b"")?;
    assert_eq!(rt; reported(check_file(uncounted.as_slice(), 0, 0)), (0, 0));
    let reduced = many_lines(rt.alloc(), 65_536, b"S5030000FC\n")?;
    assert_eq!(rt; reported(check_file(reduced.as_slice(), 0, 0)), (6, 65_537));
    let wide = many_lines(rt.alloc(), 65_536, b"S604010000FA\n")?;
    assert_eq!(rt; reported(check_file(wide.as_slice(), 0, 0)), (3, 65_537));
    Ok(())
}

// A text of the largest size is looked at, a longer one is not.
#[test]
fn text_size(rt: HostRuntime) -> Result<(), Fail> {
    let mut text = many_lines(rt.alloc(), 381_299, b"")?;
    assert_eq!(rt; text.len(), MAX_TEXT);
    assert_eq!(rt; reported(check_file(text.as_slice(), 0, 0)), (0, 0));
    text.push(0)?;
    assert_eq!(rt; reported(check_file(text.as_slice(), 0, 0)), (2, 0));
    assert_eq!(rt; reported(check_file(text.as_slice(), 1, 0)), (1, 0));
    Ok(())
}

const CASES: [Case; 81] = [
    // a data line and an end
    Case {
        text: b"S10510001234A4\nS9030000FC\n",
        target: 0,
        size: 0,
        outcome: 0,
        line: 0,
    },
    // the last LF may be missing
    Case {
        text: b"S10510001234A4\nS9030000FC",
        target: 0,
        size: 0,
        outcome: 0,
        line: 0,
    },
    // CR LF
    Case {
        text: b"S10510001234A4\r\nS9030000FC\r\n",
        target: 0,
        size: 0,
        outcome: 0,
        line: 0,
    },
    // both ends, small digits
    Case {
        text: b"S10510001234a4\r\nS9030000fc",
        target: 0,
        size: 0,
        outcome: 0,
        line: 0,
    },
    // header, count
    Case {
        text: b"S00600004844521B\nS10510001234A4\nS5030001FB\nS9030000FC\n",
        target: 0,
        size: 0,
        outcome: 0,
        line: 0,
    },
    // count of lines without data too
    Case {
        text: b"S10510001234A4\nS1030000FC\nS5030002FA\nS9030000FC\n",
        target: 0,
        size: 0,
        outcome: 0,
        line: 0,
    },
    // three address bytes
    Case {
        text: b"S20612345601025A\nS8041234565F\n",
        target: 0,
        size: 0,
        outcome: 0,
        line: 0,
    },
    // four address bytes
    Case {
        text: b"S307123456780102E1\nS70512345678E6\n",
        target: 0,
        size: 0,
        outcome: 0,
        line: 0,
    },
    // an end of another width
    Case {
        text: b"S10510001234A4\nS70500000000FA\n",
        target: 0,
        size: 0,
        outcome: 0,
        line: 0,
    },
    // a record may end at 2^32
    Case {
        text: b"S307FFFFFFFF0102F9\nS9030000FC\n",
        target: 0,
        size: 0,
        outcome: 0,
        line: 0,
    },
    // 252 bytes
    Case {
        text: b"S1FF0000000102030405060708090A0B0C0D0E0F101112131415161718191A1B1C1D1E1F202122232425262728292A2B2C2D2E2F303132333435363738393A3B3C3D3E3F404142434445464748494A4B4C4D4E4F505152535455565758595A5B5C5D5E5F606162636465666768696A6B6C6D6E6F707172737475767778797A7B7C7D7E7F808182838485868788898A8B8C8D8E8F909192939495969798999A9B9C9D9E9FA0A1A2A3A4A5A6A7A8A9AAABACADAEAFB0B1B2B3B4B5B6B7B8B9BABBBCBDBEBFC0C1C2C3C4C5C6C7C8C9CACBCCCDCECFD0D1D2D3D4D5D6D7D8D9DADBDCDDDEDFE0E1E2E3E4E5E6E7E8E9EAEBECEDEEEFF0F1F2F3F4F5F6F7F8F9FAFB76\nS9030000FC\n",
        target: 0,
        size: 0,
        outcome: 0,
        line: 0,
    },
    // starts at the end before
    Case {
        text: b"S107001001020304DE\nS10500120506DD\nS9030000FC\n",
        target: 0,
        size: 0,
        outcome: 0,
        line: 0,
    },
    // no data at a low address
    Case {
        text: b"S10510001234A4\nS1030000FC\nS10510010102E6\nS9030000FC\n",
        target: 0,
        size: 0,
        outcome: 0,
        line: 0,
    },
    // one byte an address
    Case {
        text: b"S104000001FA\nS104000102F8\nS9030000FC\n",
        target: 2,
        size: 1,
        outcome: 0,
        line: 0,
    },
    // the largest EEPROM
    Case {
        text: b"S104000001FA\nS9030000FC\n",
        target: 3,
        size: 1048576,
        outcome: 0,
        line: 0,
    },
    // no such target
    Case {
        text: b"S10510001234A4\nS9030000FC\n",
        target: 1,
        size: 64,
        outcome: 1,
        line: 0,
    },
    // no such target
    Case {
        text: b"S10510001234A4\nS9030000FC\n",
        target: 4,
        size: 64,
        outcome: 1,
        line: 0,
    },
    // an EEPROM of no bytes
    Case {
        text: b"S10510001234A4\nS9030000FC\n",
        target: 2,
        size: 0,
        outcome: 1,
        line: 0,
    },
    // too large an EEPROM
    Case {
        text: b"S10510001234A4\nS9030000FC\n",
        target: 3,
        size: 1048577,
        outcome: 1,
        line: 0,
    },
    // target before lines
    Case {
        text: b"",
        target: 255,
        size: 64,
        outcome: 1,
        line: 0,
    },
    // an empty line
    Case {
        text: b"S10510001234A4\n\nS9030000FC\n",
        target: 0,
        size: 0,
        outcome: 3,
        line: 2,
    },
    // nothing but LF
    Case {
        text: b"\n",
        target: 0,
        size: 0,
        outcome: 3,
        line: 1,
    },
    // a lone CR at the end
    Case {
        text: b"S10510001234A4\nS9030000FC\r",
        target: 0,
        size: 0,
        outcome: 3,
        line: 2,
    },
    // CR CR LF
    Case {
        text: b"S10510001234A4\r\r\nS9030000FC",
        target: 0,
        size: 0,
        outcome: 3,
        line: 1,
    },
    // CR alone between lines
    Case {
        text: b"S10510001234A4\rS9030000FC",
        target: 0,
        size: 0,
        outcome: 3,
        line: 1,
    },
    // a small s
    Case {
        text: b"s10510001234A4\nS9030000FC\n",
        target: 0,
        size: 0,
        outcome: 3,
        line: 1,
    },
    // type 4
    Case {
        text: b"S40510001234A4\nS9030000FC\n",
        target: 0,
        size: 0,
        outcome: 3,
        line: 1,
    },
    // type 6
    Case {
        text: b"S10510001234A4\nS6030001FB\nS9030000FC\n",
        target: 0,
        size: 0,
        outcome: 3,
        line: 2,
    },
    // a type that is no digit
    Case {
        text: b"SA0510001234A4\nS9030000FC\n",
        target: 0,
        size: 0,
        outcome: 3,
        line: 1,
    },
    // S alone
    Case {
        text: b"S\n",
        target: 0,
        size: 0,
        outcome: 3,
        line: 1,
    },
    // no count
    Case {
        text: b"S1\n",
        target: 0,
        size: 0,
        outcome: 3,
        line: 1,
    },
    // half a count
    Case {
        text: b"S10\n",
        target: 0,
        size: 0,
        outcome: 3,
        line: 1,
    },
    // half a pair
    Case {
        text: b"S10510001234A\nS9030000FC\n",
        target: 0,
        size: 0,
        outcome: 3,
        line: 1,
    },
    // one pair too many
    Case {
        text: b"S10510001234A400\nS9030000FC\n",
        target: 0,
        size: 0,
        outcome: 3,
        line: 1,
    },
    // one pair too few
    Case {
        text: b"S10510001234\nS9030000FC\n",
        target: 0,
        size: 0,
        outcome: 3,
        line: 1,
    },
    // a count one too large
    Case {
        text: b"S10610001234A3\nS9030000FC\n",
        target: 0,
        size: 0,
        outcome: 3,
        line: 1,
    },
    // no room for the address
    Case {
        text: b"S102FD00\n",
        target: 0,
        size: 0,
        outcome: 3,
        line: 1,
    },
    // no room for the checksum
    Case {
        text: b"S1020000\n",
        target: 0,
        size: 0,
        outcome: 3,
        line: 1,
    },
    // no digit
    Case {
        text: b"S105100012G4A4\nS9030000FC\n",
        target: 0,
        size: 0,
        outcome: 3,
        line: 1,
    },
    // a blank after a line
    Case {
        text: b"S10510001234A4 \nS9030000FC\n",
        target: 0,
        size: 0,
        outcome: 3,
        line: 1,
    },
    // a blank before a line
    Case {
        text: b"S10510001234A4\n S9030000FC\n",
        target: 0,
        size: 0,
        outcome: 3,
        line: 2,
    },
    // a count with data
    Case {
        text: b"S10510001234A4\nS504000100FA\nS9030000FC\n",
        target: 0,
        size: 0,
        outcome: 3,
        line: 2,
    },
    // an end with data
    Case {
        text: b"S10510001234A4\nS904000000FB\n",
        target: 0,
        size: 0,
        outcome: 3,
        line: 2,
    },
    // shape before checksum
    Case {
        text: b"S105100012340G\nS9030000FC\n",
        target: 0,
        size: 0,
        outcome: 3,
        line: 1,
    },
    // a wrong checksum
    Case {
        text: b"S10510001234A5\nS9030000FC\n",
        target: 0,
        size: 0,
        outcome: 4,
        line: 1,
    },
    // a wrong checksum of a header
    Case {
        text: b"S00400004100\nS10510001234A4\nS9030000FC\n",
        target: 0,
        size: 0,
        outcome: 4,
        line: 1,
    },
    // a wrong checksum of a count
    Case {
        text: b"S10510001234A4\nS503000100\nS9030000FC\n",
        target: 0,
        size: 0,
        outcome: 4,
        line: 2,
    },
    // a wrong checksum of an end
    Case {
        text: b"S10510001234A4\nS903000000\n",
        target: 0,
        size: 0,
        outcome: 4,
        line: 2,
    },
    // checksum before order
    Case {
        text: b"S10510001234A4\nS003000000\nS9030000FC\n",
        target: 0,
        size: 0,
        outcome: 4,
        line: 2,
    },
    // a header second
    Case {
        text: b"S10510001234A4\nS00600004844521B\nS9030000FC\n",
        target: 0,
        size: 0,
        outcome: 5,
        line: 2,
    },
    // two headers
    Case {
        text: b"S00600004844521B\nS00600004844521B\nS10510001234A4\nS9030000FC\n",
        target: 0,
        size: 0,
        outcome: 5,
        line: 2,
    },
    // data after the count
    Case {
        text: b"S10510001234A4\nS5030001FB\nS10520000102D7\nS9030000FC\n",
        target: 0,
        size: 0,
        outcome: 5,
        line: 3,
    },
    // two counts
    Case {
        text: b"S10510001234A4\nS5030001FB\nS5030001FB\nS9030000FC\n",
        target: 0,
        size: 0,
        outcome: 5,
        line: 3,
    },
    // order before count
    Case {
        text: b"S10510001234A4\nS5030001FB\nS5030007F5\nS9030000FC\n",
        target: 0,
        size: 0,
        outcome: 5,
        line: 3,
    },
    // data after the end
    Case {
        text: b"S10510001234A4\nS9030000FC\nS10520000102D7\n",
        target: 0,
        size: 0,
        outcome: 5,
        line: 3,
    },
    // two ends
    Case {
        text: b"S10510001234A4\nS9030000FC\nS9030000FC\n",
        target: 0,
        size: 0,
        outcome: 5,
        line: 3,
    },
    // a header after the end
    Case {
        text: b"S10510001234A4\nS9030000FC\nS00600004844521B\n",
        target: 0,
        size: 0,
        outcome: 5,
        line: 3,
    },
    // a count after the end
    Case {
        text: b"S10510001234A4\nS9030000FC\nS5030001FB\n",
        target: 0,
        size: 0,
        outcome: 5,
        line: 3,
    },
    // an empty line after the end has no shape
    Case {
        text: b"S10510001234A4\nS9030000FC\n\n",
        target: 0,
        size: 0,
        outcome: 3,
        line: 3,
    },
    // no end line
    Case {
        text: b"S10510001234A4\n",
        target: 0,
        size: 0,
        outcome: 5,
        line: 0,
    },
    // no line at all
    Case {
        text: b"",
        target: 0,
        size: 0,
        outcome: 5,
        line: 0,
    },
    // no end line before no data
    Case {
        text: b"S00600004844521B\n",
        target: 0,
        size: 0,
        outcome: 5,
        line: 0,
    },
    // a count one too small
    Case {
        text: b"S10510001234A4\nS5030000FC\nS9030000FC\n",
        target: 0,
        size: 0,
        outcome: 6,
        line: 2,
    },
    // a count one too large
    Case {
        text: b"S10510001234A4\nS5030002FA\nS9030000FC\n",
        target: 0,
        size: 0,
        outcome: 6,
        line: 2,
    },
    // a count of the records with data
    Case {
        text: b"S10510001234A4\nS1030000FC\nS5030001FB\nS9030000FC\n",
        target: 0,
        size: 0,
        outcome: 6,
        line: 3,
    },
    // starts below the end before
    Case {
        text: b"S107001001020304DE\nS10500110506DE\nS9030000FC\n",
        target: 0,
        size: 0,
        outcome: 7,
        line: 2,
    },
    // the same address again
    Case {
        text: b"S10510001234A4\nS10510001234A4\nS9030000FC\n",
        target: 0,
        size: 0,
        outcome: 7,
        line: 2,
    },
    // below the end across a record without data
    Case {
        text: b"S10510001234A4\nS1032000DC\nS10510000506DF\nS9030000FC\n",
        target: 0,
        size: 0,
        outcome: 7,
        line: 3,
    },
    // an end at 2^32 is not reduced
    Case {
        text: b"S307FFFFFFFF0102F9\nS307000000000304F1\nS9030000FC\n",
        target: 0,
        size: 0,
        outcome: 7,
        line: 2,
    },
    // bytes, not words, in an EEPROM
    Case {
        text: b"S107001001020304DE\nS10500120506DD\nS9030000FC\n",
        target: 2,
        size: 64,
        outcome: 7,
        line: 2,
    },
    // half an address
    Case {
        text: b"S1061000010203E3\nS9030000FC\n",
        target: 0,
        size: 0,
        outcome: 8,
        line: 1,
    },
    // whole addresses before rising ones
    Case {
        text: b"S10510001234A4\nS104100001EA\nS9030000FC\n",
        target: 0,
        size: 0,
        outcome: 8,
        line: 2,
    },
    // the first fault by line
    Case {
        text: b"S10510001234A4\nS10510001234A4\nx\n",
        target: 0,
        size: 0,
        outcome: 7,
        line: 2,
    },
    // order before addresses
    Case {
        text: b"S10510001234A4\nS5030001FB\nS104000001FA\nS9030000FC\n",
        target: 0,
        size: 0,
        outcome: 5,
        line: 3,
    },
    // an end alone
    Case {
        text: b"S9030000FC\n",
        target: 0,
        size: 0,
        outcome: 9,
        line: 0,
    },
    // records without data
    Case {
        text: b"S1030000FC\nS5030001FB\nS9030000FC\n",
        target: 0,
        size: 0,
        outcome: 9,
        line: 0,
    },
    // a count before the data that it counts
    Case {
        text: b"S5030001FB\nS10510001234A4\nS9030000FC\n",
        target: 0,
        size: 0,
        outcome: 6,
        line: 1,
    },
    // a count of none before the data
    Case {
        text: b"S5030000FC\nS10510001234A4\nS9030000FC\n",
        target: 0,
        size: 0,
        outcome: 5,
        line: 2,
    },
    // a header without data
    Case {
        text: b"S0030000FC\nS10510001234A4\nS9030000FC\n",
        target: 0,
        size: 0,
        outcome: 0,
        line: 0,
    },
    // addresses past 24 bits rise
    Case {
        text: b"S30700FFFFFF0102F8\nS307010000000304F0\nS9030000FC\n",
        target: 0,
        size: 0,
        outcome: 0,
        line: 0,
    },
    // addresses past 24 bits are not cut
    Case {
        text: b"S307010000100102E4\nS307000000200304D1\nS9030000FC\n",
        target: 0,
        size: 0,
        outcome: 7,
        line: 2,
    },
];
