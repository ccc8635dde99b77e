// One line: its mark, type, count, address, data and checksum.
ghost use Rattle.std.specs.Prelude.{◌≡◌};
ghost use Rattle.std.specs.Option.{option_map};
ghost use Rattle.srecord.specs.File.{ReadsLine};
ghost use Rattle.srecord.specs.Hex.{bytes_of};
ghost use Rattle.srecord.specs.Line.{fault_number, ReadsType, carries_data, count_fits, fields_in, checked, content_of, says, said, line_of};

use crate::hex::{number, pair, sum};

// What is wrong with a text.
#[derive(Clone, Copy, PartialEq, Eq, Debug)]
pub enum Fault {
    Shape,
    Checksum,
    Order,
    Count,
    NoEnd,
}

impl Fault {
    // The number by which the fault is reported; a `u8::from` would not say which number it gives.
    pub fn number(self) -> u8
        ensures { result ≡ fault_number self }
    {
        match self {
            Fault::Shape => 3,
            Fault::Checksum => 4,
            Fault::Order => 5,
            Fault::Count => 6,
            Fault::NoEnd => 5,
        }
    }
}

// A line as it is read; a header and a data line lend the digits of their data from the text.
#[derive(Clone, Copy)]
pub enum Line<'a> {
    Header(&'a [u8]),
    Data(u32, &'a [u8]),
    Count(u32),
    End,
}

#[derive(Clone, Copy)]
pub enum Kind {
    Header,
    Data,
    Count,
    End,
}

impl Kind {
    // Whether lines of the kind carry data.
    fn carries_data(self) -> bool
        ensures { result ≡ carries_data self }
    {
        matches!(self, Kind::Header | Kind::Data)
    }
}

// What a type digit says: the kind of line, and the number of its address bytes.
#[derive(Clone, Copy)]
pub struct Form {
    kind: Kind,
    width: usize,
}

// Reads one line, without its end. The law is shown here of the equation, and not at each exit of `parse_line`.
pub fn read_line(line: &[u8]) -> Result<Line<'_>, Fault>
    ensures answer { said result ≡ line_of line.now }
    ensures law { ReadsLine line.now (said result) }
{
    parse_line(line)
}

// The line by its mark, type, count, address, data and checksum.
#[inline(always)]
pub(crate) fn parse_line(line: &[u8]) -> Result<Line<'_>, Fault>
    ensures { said result ≡ line_of line.now }
{
    let [b'S', digit, digits @ ..] = line else {
        return Err(Fault::Shape);
    };
    let form = Form::try_from(*digit)?;
    let (address, data) = form.fields(digits).ok_or(Fault::Shape)?;
    let address = number(address).ok_or(Fault::Shape)?;
    check_sum(digits)?;
    Ok(form.line(address, data))
}

// Whether the sum of count, address, data and checksum is 255 modulo 256.
#[inline(always)]
fn check_sum(digits: &[u8]) -> Result<(), Fault>
    ensures { result ≡ checked (bytes_of digits.now) }
{
    match sum(digits) {
        Some(0xff) => Ok(()),
        Some(_) => Err(Fault::Checksum),
        None => Err(Fault::Shape),
    }
}

impl TryFrom<u8> for Form {
    type Error = Fault;

    ghost try_from_gives = { ReadsType };

    fn try_from(digit: u8) -> Result<Form, Fault> {
        let (kind, width) = match digit {
            b'0' => (Kind::Header, 2),
            b'1' => (Kind::Data, 2),
            b'2' => (Kind::Data, 3),
            b'3' => (Kind::Data, 4),
            b'5' => (Kind::Count, 2),
            b'7' => (Kind::End, 4),
            b'8' => (Kind::End, 3),
            b'9' => (Kind::End, 2),
            _ => return Err(Fault::Shape),
        };
        Ok(Form { kind, width })
    }
}

impl Form {
    // The digits of address and data, where the count before them is right for them and the form.
    fn fields(self, digits: &[u8]) -> Option<(&[u8], &[u8])>
        ensures { option_map (λ p. (p.0.now, p.1.now)) result ≡ fields_in self digits.now }
    {
        let [high, low, body @ ..] = digits else {
            return None;
        };
        let count = usize::from(pair(*high, *low)?);
        if body.len() != 2 * count || !self.takes(count) {
            return None;
        }
        let start = 2 * self.width;
        Some((&body[..start], &body[start..body.len() - 2]))
    }

    // Whether a line of the form can have so many bytes behind its count: address and checksum, and data
    // where it carries any.
    fn takes(self, count: usize) -> bool
        ensures { result ≡ count_fits self count count }
    {
        count > self.width && (self.kind.carries_data() || count - self.width == 1)
    }

    // The line of the form that has this address, and these data digits where it carries data.
    fn line(self, address: u32, digits: &[u8]) -> Line<'_>
        ensures { content_of result ≡ says self.kind address digits.now }
    {
        match self.kind {
            Kind::Header => Line::Header(digits),
            Kind::Data => Line::Data(address, digits),
            Kind::Count => Line::Count(address),
            Kind::End => Line::End,
        }
    }
}
