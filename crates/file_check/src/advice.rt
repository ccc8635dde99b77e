// What a person is told of a refused file.
ghost use Rattle.std.specs.Prelude.{◌≡◌};
ghost use Rattle.file_check.specs.Names.{plain_name};

use crate::cause::Cause;
use crate::rows::shown;
use std::fmt;

// A refused file, the line at fault, if one is, and why.
#[derive(Clone, Copy)]
pub struct Advice<'a> {
    pub file: &'a str,
    pub line: Option<usize>,
    pub cause: Cause,
}

impl fmt::Display for Advice<'_> {
    fn fmt<W: fmt::Write>(&self, f: &mut fmt::Formatter<W>) -> fmt::Result {
        let Advice { file, line, cause } = *self;
        let line = shown(line);
        if is_plain(file) {
            write!(f, "{file}:{line}: {cause}")
        } else {
            write!(f, "{file:?}:{line}: {cause}")
        }
    }
}

// Whether a name is shown as it is; one with a control character is escaped, so that the message
// stays one line.
fn is_plain(name: &str) -> bool
    ensures { result ≡ plain_name name.now }
{
    !name.bytes().any(|c| c.is_ascii_control())
}

// What is wrong, and what to do.
impl fmt::Display for Cause {
    fn fmt<W: fmt::Write>(&self, f: &mut fmt::Formatter<W>) -> fmt::Result {
        f.write_str(match *self {
            Cause::Size => {
                "the size of the EEPROM is not 1 to 1,048,576 bytes; give its bytes by --size"
            }
            Cause::TextSize => {
                "the text is longer than 4,194,304 bytes; leave out what does not go to this target, or convert again with more data on a line"
            }
            Cause::EmptyLine => "the line is empty; delete it",
            Cause::SmallLetter => "the line begins with a lower-case s; write a capital S",
            Cause::IntelHex => {
                "the line is of an Intel HEX file, and S-records are wanted; convert the file, as by srec_cat FILE -intel -execution-start-address 0 -output NEW -motorola"
            }
            Cause::Reserved => {
                "a line of type S4 is not taken, since the type has no meaning; delete the line, or convert again"
            }
            Cause::WideCount => {
                "a count of type S6 is not taken, and a file of more than 65,535 records was probably written with it; convert without the count line"
            }
            Cause::ManyLines => {
                "there are more data lines than the 65,535 that a count line (S5) can tell; convert without the count line"
            }
            Cause::Shape => {
                "the line is not S, a type 0 to 3, 5 or 7 to 9, and pairs of hex digits, as many as its count says, up to LF or CR LF; convert the file again, and mind that S4 and S6 lines, empty lines, a lower-case s and a lone CR are not taken"
            }
            Cause::Checksum => {
                "the checksum is not that of the line, which was damaged or edited; fetch or convert the file again"
            }
            Cause::Order => {
                "the line is out of order; the order is one header (S0) or none, data (S1 to S3), one count (S5) or none, and one end line (S7 to S9), with nothing behind it: see that no two files were joined, and convert again"
            }
            Cause::NoEnd => {
                "there is no end line (S7, S8 or S9), and the file was probably converted without an execution start address, or was cut short; convert it again with one, as by srec_cat's option -execution-start-address 0"
            }
            Cause::EmptyText => {
                "the text is empty; see that the right file was named, and that it was written"
            }
            Cause::Count => {
                "the count line does not tell the number of data lines before it, so lines were lost or added; fetch or convert the file again"
            }
            Cause::NotRising => {
                "the record starts below the end of the one before it; choose the target that the addresses were made for, where flash has two bytes an address, or sort the records, with none over another, as srec_cat does when it converts"
            }
            Cause::NotWhole => {
                "the record has an odd number of bytes, and an address of the flash stands for two; convert again with an even number of bytes on each line"
            }
            Cause::NoData => {
                "no line has data; see that the right file was converted, with the sections for this target"
            }
        })
    }
}
