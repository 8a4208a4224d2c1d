//! Numbers, read in the one form that they are printed in.
ghost use Rattle.std.specs.Prelude.{◌≡◌, ◌≢◌, ◌<◌, ◌≤◌, ◌^◌, ℕ, ℤ, MatchOption, FitsSigned};
ghost use Rattle.std.specs.Int.{w32};
ghost use Rattle.std.specs.Fmt.{decimal, signed_decimal};
ghost use Rattle.std.specs.Str.Parse.{AllDigits, digits_value};

// The number that the bytes spell.
pub(crate) fn parse_number(bytes: &[u8]) -> Option<i32>
    ensures { MatchOption result ((number : ℤ) → FitsSigned w32 number → bytes.now ≢ signed_decimal number)
        (λ number. bytes.now ≡ signed_decimal number) }
{
    let Some(digits) = bytes.strip_prefix(b"-") else {
        let size = parse_index(bytes)?;
        if size >= 1 << 31 {
            return None;
        }
        return Some(size as i32);
    };
    let size = parse_index(digits)?;
    if size == 0 || size > 1 << 31 {
        return None;
    }
    Some(-(size as i64) as i32)
}

// The index that the bytes spell.
pub(crate) fn parse_index(bytes: &[u8]) -> Option<usize>
    ensures { MatchOption result ((index : ℕ) → index < 2 ^ 64 → bytes.now ≢ decimal index)
        (λ index. bytes.now ≡ decimal index) }
{
    if bytes.is_empty() {
        return None;
    }
    if bytes[0] == b'0' {
        return if bytes.len() == 1 { Some(0) } else { None };
    }
    Some(parse_digits(bytes)?)
}

// The value of the digits.
fn parse_digits(bytes: &[u8]) -> Option<usize>
    ensures { MatchOption result (AllDigits 10 bytes.now → 2 ^ 64 ≤ digits_value 10 bytes.now)
        (λ value. AllDigits 10 bytes.now × (digits_value 10 bytes.now ≡ value)) }
{
    let mut value: usize = 0;
    for byte in bytes {
        if *byte < b'0' || *byte > b'9' {
            return None;
        }
        value = value
            .checked_mul(10)?
            .checked_add(usize::from(*byte - b'0'))?;
    }
    Some(value)
}
