// Numbers as they are written in texts.
ghost use Rattle.std.specs.Prelude.{◌≡◌, ◌≤◌};
ghost use Rattle.script.specs.Number.{number_of, hex_number_of, numeral};

// The number that a word writes: decimal digits, or hex digits behind 0x, of a number below 2^64.
pub fn read_number(word: &str) -> Option<usize>
    ensures { result ≡ number_of word.now }
{
    match word.strip_prefix("0x") {
        Some(digits) => read_hex_digits(digits),
        None => read_digits(word, 10),
    }
}

// The number that a word writes in hex digits; 0x may stand in front.
pub fn read_hex(word: &str) -> Option<usize>
    ensures { result ≡ hex_number_of word.now }
{
    read_hex_digits(word.strip_prefix("0x").unwrap_or(word))
}

// The number below 2^64 that hex digits write.
pub fn read_hex_digits(digits: &str) -> Option<usize>
    ensures { result ≡ numeral 16 digits.now }
{
    read_digits(digits, 16)
}

// The number that digits write, if they are digits alone.
#[tactic(auto, using(crate::proofs::Numerals::numeral_read))]
fn read_digits(digits: &str, radix: u32) -> Option<usize>
    requires { (2 ≤ radix) × (radix ≤ 16) }
    ensures { result ≡ numeral radix digits.now }
{
    // `from_str_radix` takes a plus in front, which is no digit.
    if digits.starts_with('+') {
        return None;
    }
    usize::from_str_radix(digits, radix).ok()
}
