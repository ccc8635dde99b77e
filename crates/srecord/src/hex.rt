// Pairs of hex digits: the byte of a pair, and what a row of pairs adds up to or counts.
ghost use Rattle.std.specs.Prelude.{◌≡◌, ℕ, ◌%◌, ◌≤◌, length, fold, sum as sum_of};
ghost use Rattle.std.specs.Option.{option_map};
ghost use Rattle.srecord.specs.Hex.{Follows, digit_value, pair_value, pairs_in, bytes_of, number as number_of};

// The value of each character as a hex digit of either case, by its code; 16, which no digit has, where it is none.
static VALUES: [u8; 256] = [
    16, 16, 16, 16, 16, 16, 16, 16, 16, 16, 16, 16, 16, 16, 16, 16, 16, 16, 16, 16, 16, 16, 16, 16,
    16, 16, 16, 16, 16, 16, 16, 16, 16, 16, 16, 16, 16, 16, 16, 16, 16, 16, 16, 16, 16, 16, 16, 16,
    0, 1, 2, 3, 4, 5, 6, 7, 8, 9, 16, 16, 16, 16, 16, 16, 16, 10, 11, 12, 13, 14, 15, 16, 16, 16,
    16, 16, 16, 16, 16, 16, 16, 16, 16, 16, 16, 16, 16, 16, 16, 16, 16, 16, 16, 16, 16, 16, 16, 10,
    11, 12, 13, 14, 15, 16, 16, 16, 16, 16, 16, 16, 16, 16, 16, 16, 16, 16, 16, 16, 16, 16, 16, 16,
    16, 16, 16, 16, 16, 16, 16, 16, 16, 16, 16, 16, 16, 16, 16, 16, 16, 16, 16, 16, 16, 16, 16, 16,
    16, 16, 16, 16, 16, 16, 16, 16, 16, 16, 16, 16, 16, 16, 16, 16, 16, 16, 16, 16, 16, 16, 16, 16,
    16, 16, 16, 16, 16, 16, 16, 16, 16, 16, 16, 16, 16, 16, 16, 16, 16, 16, 16, 16, 16, 16, 16, 16,
    16, 16, 16, 16, 16, 16, 16, 16, 16, 16, 16, 16, 16, 16, 16, 16, 16, 16, 16, 16, 16, 16, 16, 16,
    16, 16, 16, 16, 16, 16, 16, 16, 16, 16, 16, 16, 16, 16, 16, 16, 16, 16, 16, 16, 16, 16, 16, 16,
    16, 16, 16, 16, 16, 16, 16, 16, 16, 16, 16, 16, 16, 16,
];

// The value of a hex digit of either case; none for another character.
fn digit(c: u8) -> Option<u8>
    ensures { result ≡ digit_value c }
{
    let value = VALUES[usize::from(c)];
    (value < 16).then_some(value)
}

// The byte that two digits spell, high digit first.
pub(crate) fn pair(high: u8, low: u8) -> Option<u8>
    ensures { result ≡ pair_value high low }
{
    Some(digit(high)? * 16 + digit(low)?)
}

// The digits two by two; none where one is left over.
pub(crate) fn pairs(digits: &[u8]) -> Option<&[[u8; 2]]>
    ensures { option_map (λ ps. ps.now) result ≡ pairs_in digits.now }
{
    let (pairs, rest) = digits.as_chunks();
    rest.is_empty().then_some(pairs)
}

// The bytes that the digits spell, taken into a total one by one; none where they are no pairs.
#[inline(always)]
fn fold_bytes<S: Copy, F: Fn(S, u8) -> S>(digits: &[u8], start: S, step: F) -> Option<S>
    requires { F.IsAlwaysCallable step }
    ensures { (f : S → ℕ → S) → Follows (F.post step) f → result ≡ option_map (fold f start) (bytes_of digits.now) }
{
    // A `for`, since of a `try_fold` whose closure uses `?` it is left open that it may be called.
    let mut total = start;
    for [high, low] in pairs(digits)? {
        total = step(total, pair(*high, *low)?);
    }
    Some(total)
}

// The low byte of the sum of the bytes that the digits spell; none where they are no pairs.
#[inline(always)]
pub(crate) fn sum(digits: &[u8]) -> Option<u8>
    ensures { result ≡ option_map (λ bs. sum_of bs % 256) (bytes_of digits.now) }
{
    fold_bytes(digits, 0, |low: u8, byte| low.wrapping_add(byte))
}

// The number that up to four pairs spell, high byte first; none where they are no pairs.
#[inline(always)]
pub(crate) fn number(digits: &[u8]) -> Option<u32>
    requires { length digits.now ≤ 8 }
    ensures { result ≡ option_map number_of (bytes_of digits.now) }
{
    fold_bytes(digits, 0, |value: u32, byte| value << 8 | u32::from(byte))
}
