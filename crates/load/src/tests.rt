// Files with what is printed of their load, and what a crew is told of those that are not loaded.
use crate::text::{MAX_TEXT, load_text};
use std::test::Fail;

#[test]
fn refused(rt: HostRuntime) -> Result<(), Fail> {
    for (file, line, message) in REFUSED {
        let loaded = load_text(rt.alloc(), file)?;
        let cause = loaded.cause.ok_or(message)?;
        assert_eq!(rt; loaded.output.lines().last(), Some(line));
        assert_eq!(rt; format!(in rt.alloc(); "{cause}")?.as_str(), message);
    }
    Ok(())
}

// The longest text is looked at, and one byte more is too long.
#[test]
fn long(rt: HostRuntime) -> Result<(), Fail> {
    let mut text = vec![in rt.alloc(); b' '; MAX_TEXT]?;
    let longest = load_text(rt.alloc(), text.as_slice())?;
    assert_eq!(rt; longest.output.as_str(), "R\t3\t1\t0\t0\t0\t0\t0\n");
    text.push(b' ')?;
    let longer = load_text(rt.alloc(), text.as_slice())?;
    assert_eq!(rt; longer.output.as_str(), "R\t2\t0\t0\t0\t0\t0\t0\n");
    Ok(())
}

// Each file with the last line that is printed, and the message.
const REFUSED: [(&[u8], &str, &str); 3] = [
    (
        b"S10510001234A5\nS9030000FC\n",
        "R\t4\t1\t0\t0\t0\t0\t0",
        "line 1: the checksum is not that of the line, which was damaged or edited; fetch or convert the file again",
    ),
    (
        b"S10510001234A4\n",
        "R\t5\t0\t0\t0\t0\t0\t0",
        "there is no end line (S7, S8 or S9), and the file was probably converted without an execution start address, or was cut short; convert it again with one, as by srec_cat's option -execution-start-address 0",
    ),
    // behind the last address of the flash
    (
        b"S1051040123464\nS9030000FC\n",
        "R\t10\t1\t0\t0\t2\t0\t1",
        "line 1: the record lies outside of the flash, which has the addresses 0x1000 to 0x103F of two bytes each; convert the file again for these addresses, and mind that addresses of a flash file count words",
    ),
];
