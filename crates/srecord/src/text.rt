// A text by its lines.
ghost use Rattle.std.specs.Prelude.{◌<◌, length};
ghost use Rattle.srecord.specs.Text.{CutsLine, SkipsEnd, ReadsFirst};

use crate::hex::pair;
use crate::line::{Fault, Line, parse_line};

// The first line of a text that is not empty, read, and what follows it; or its fault.
#[inline(always)]
pub(crate) fn first_line(text: &[u8]) -> Result<(Line<'_>, &[u8]), Fault>
    requires { 0 < length text.now }
    ensures { ReadsFirst text.now result }
{
    let (line, rest) = cut_line(text).ok_or(Fault::Shape)?;
    Ok((parse_line(line)?, rest))
}

// The line that the count at its front measures, without its end, and what follows the end; none
// where no line ends there.
fn cut_line(text: &[u8]) -> Option<(&[u8], &[u8])>
    ensures { CutsLine text.now result }
{
    let [_, _, high, low, ..] = text else {
        return None;
    };
    let count = usize::from(pair(*high, *low)?);
    let (line, tail) = text.split_at_checked(4 + 2 * count)?;
    Some((line, after_end(tail)?))
}

// What follows the end of a line at the front of a text; none where no line ends there.
fn after_end(text: &[u8]) -> Option<&[u8]>
    ensures { SkipsEnd text.now result }
{
    match text {
        [] => Some(text),
        [b'\n', rest @ ..] | [b'\r', b'\n', rest @ ..] => Some(rest),
        _ => None,
    }
}
