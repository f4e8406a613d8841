//! Reads a field as a number, and as a literal.
ghost use Rattle.std.specs.Prelude.{◌≡◌, ◌≤◌, [], ◌∷◌, Some};
ghost use Rattle.texts.specs.Numbers.{number, with_digits, NumberRead, negative, literal, LiteralRead};

/// The greatest number of five digits.
pub(crate) const FIVE_DIGITS: u64 = 99_999;

/// A number without a leading zero, up to `most`.
#[tactic(auto, using(crate::proofs::Decimal::number_laws))]
pub fn read_number(field: &[u8], most: u64) -> Option<u64>
    ensures value { result ≡ number most field.now }
    ensures means { NumberRead most field.now result }
{
    match field {
        [] | [b'0', _, ..] => None,
        _ => read_digits(field, most),
    }
}

/// The number with these digits, up to `most`.
fn read_digits(digits: &[u8], most: u64) -> Option<u64>
    ensures { result ≡ with_digits most 0 digits.now }
{
    let mut n = 0;
    for byte in digits {
        n = with_digit(n, *byte, most)?;
    }
    Some(n)
}

/// The number `n` with one digit more, up to `most`.
fn with_digit(n: u64, byte: u8, most: u64) -> Option<u64>
    ensures { result ≡ with_digits most n (byte ∷ []) }
{
    if !byte.is_ascii_digit() {
        return None;
    }
    let longer = n.checked_mul(10)?.checked_add(u64::from(byte - b'0'))?;
    (longer <= most).then_some(longer)
}

/// A number of at most five digits, with or without a minus before it; there is no minus before 0.
pub fn read_literal(field: &[u8]) -> Option<i32>
    ensures value { result ≡ literal field.now }
    ensures means { LiteralRead field.now result }
{
    match field {
        [b'-', digits @ ..] => negative(read_number(digits, FIVE_DIGITS)?),
        _ => Some(read_number(field, FIVE_DIGITS)? as i32),
    }
}

/// The number with a minus before it.
fn negative(n: u64) -> Option<i32>
    requires { n ≤ FIVE_DIGITS }
    ensures { result ≡ negative (Some n) }
{
    if n == 0 {
        return None;
    }
    Some(-(n as i32))
}
