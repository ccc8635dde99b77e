// What a crew is told of a file that was not loaded: the line at fault, if one is, the cause, and what to do.
use crate::cause::Cause;
use bootloader::FRAME_ID;
use loader::{Reason, Refusal};
use srecord::Fault;
use std::fmt;

// One sentence.
impl fmt::Display for Cause {
    fn fmt<W: fmt::Write>(&self, f: &mut fmt::Formatter<W>) -> fmt::Result {
        match *self {
            Cause::File(Refusal { reason, line: None }) => {
                let wrong = Wrong(reason);
                write!(f, "{wrong}")
            }
            Cause::File(
                Refusal {
                    reason,
                    line: Some(line),
                },
            ) => {
                let wrong = Wrong(reason);
                write!(f, "line {line}: {wrong}")
            }
            Cause::Outside { line } => write!(
                f,
                "line {line}: the record lies outside of the flash, which has the addresses 0x1000 to 0x103F of two bytes each; convert the file again for these addresses, and mind that addresses of a flash file count words"
            ),
            Cause::Unlisted => f.write_str(
                "the part ID of the board is not listed, so nothing was cleared; see that the right board is connected, and that the loader is one that knows it",
            ),
            Cause::Refused { command, code } => {
                let name = Name(command);
                let advice = Code(code);
                write!(
                    f,
                    "the board refused {name} (0x{command:02X}) with the code 0x{code:02X}: {advice}"
                )
            }
            Cause::Silent { command } => {
                let name = Name(command);
                write!(
                    f,
                    "the board did not answer {name} (0x{command:02X}), which was sent three times; check the cable, the power of the board, and that frames go out with the identifier 0x{FRAME_ID:08X}, and load again"
                )
            }
        }
    }
}

// What is wrong with a file, and what to do.
#[derive(Clone, Copy)]
struct Wrong(Reason);

impl fmt::Display for Wrong {
    fn fmt<W: fmt::Write>(&self, f: &mut fmt::Formatter<W>) -> fmt::Result {
        f.write_str(match self.0 {
            Reason::Target => "there is no such target; load the flash",
            Reason::TextSize => {
                "the text is longer than 65,536 bytes; leave out what does not go to this target, or convert again with more data on a line"
            }
            Reason::File(Fault::Shape) => {
                "the line is not S, a type 0 to 3, 5 or 7 to 9, and pairs of hex digits, as many as its count says, up to LF or CR LF; convert the file again, and mind that S4 and S6 lines, empty lines, a lower-case s and a lone CR are not taken"
            }
            Reason::File(Fault::Checksum) => {
                "the checksum is not that of the line, which was damaged or edited; fetch or convert the file again"
            }
            Reason::File(Fault::Order) => {
                "the line is out of order; the order is one header (S0) or none, data (S1 to S3), one count (S5) or none, and one end line (S7 to S9), with nothing behind it: see that no two files were joined, and convert again"
            }
            Reason::File(Fault::Count) => {
                "the count line does not tell the number of data lines before it, so lines were lost or added; fetch or convert the file again"
            }
            Reason::File(Fault::NoEnd) => {
                "there is no end line (S7, S8 or S9), and the file was probably converted without an execution start address, or was cut short; convert it again with one, as by srec_cat's option -execution-start-address 0"
            }
            Reason::NotRising => {
                "the record starts below the end of the one before it; sort the records, with none over another, as srec_cat does when it converts, and mind that flash has two bytes an address"
            }
            Reason::NotWhole => {
                "the record has an odd number of bytes, and an address of the flash stands for two; convert again with an even number of bytes on each line"
            }
            Reason::NoData => {
                "no line has data; see that the right file was converted, with the sections for this target"
            }
        })
    }
}

// The name of a command, by its code.
#[derive(Clone, Copy)]
struct Name(u8);

impl fmt::Display for Name {
    fn fmt<W: fmt::Write>(&self, f: &mut fmt::Formatter<W>) -> fmt::Result {
        f.write_str(match self.0 {
            0x01 => "Connect",
            0x02 => "Set MTA",
            0x03 => "Download",
            0x07 => "Disconnect",
            0x0E => "Build Checksum",
            0x10 => "Clear",
            0x13 => "Unlock",
            0x23 => "Download-6",
            _ => "a command",
        })
    }
}

// What the code of a refusal says, and what to do.
#[derive(Clone, Copy)]
struct Code(u8);

impl fmt::Display for Code {
    fn fmt<W: fmt::Write>(&self, f: &mut fmt::Formatter<W>) -> fmt::Result {
        f.write_str(match self.0 {
            0x30 => "it does not know the command; see that its bootloader is one for this loader",
            0x31 =>
                "the command is not well formed; see that no other host sends to it, and load again",
            0x32 => "a place or a length is out of its range; see that the file is for this board",
            0x33 => "the command is not allowed now; restart the board, and load again",
            0x35 =>
                "the memory is locked, or the password is another one; see that the file is for this board",
            0x36 =>
                "no memory is selected, or it cannot do it; see that the file is for this board",
            0x7F =>
                "a checksum does not match, or the memory did not take what was written; load again, and exchange the board if that does not help",
            _ =>
                "a code that the loader does not know; see that its bootloader is one for this loader",
        })
    }
}
