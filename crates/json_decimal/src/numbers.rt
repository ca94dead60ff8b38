//! The parts of a number.
ghost use Rattle.std.specs.Prelude.{◌≡◌, option_map};
ghost use Rattle.json_decimal.specs.Numbers.{after_digits, after_some_digits, after_minus, after_int};
ghost use Rattle.json_decimal.specs.Numbers.{after_frac, after_sign, after_exp, after_number};
ghost use Rattle.json_decimal.specs.Scan.{Tells};

use crate::error::JsonError;

/// The bytes behind digits.
#[inline(never)]
fn after_digits(bytes: &[u8]) -> &[u8]
    ensures { result.now ≡ after_digits bytes.now }
{
    let mut rest = bytes;
    while let [b'0'..=b'9', more @ ..] = rest {
        rest = more;
    }
    rest
}

fn after_some_digits(bytes: &[u8]) -> Option<&[u8]>
    ensures { option_map (λ r. r.now) result ≡ after_some_digits bytes.now }
{
    match bytes {
        [b'0'..=b'9', rest @ ..] => Some(after_digits(rest)),
        _ => None,
    }
}

fn after_minus(bytes: &[u8]) -> &[u8]
    ensures { result.now ≡ after_minus bytes.now }
{
    match bytes {
        [b'-', rest @ ..] => rest,
        _ => bytes,
    }
}

fn after_int(bytes: &[u8]) -> Option<&[u8]>
    ensures { option_map (λ r. r.now) result ≡ after_int bytes.now }
{
    match bytes {
        [b'0', rest @ ..] => Some(rest),
        _ => after_some_digits(bytes),
    }
}

fn after_frac(bytes: &[u8]) -> Option<&[u8]>
    ensures { option_map (λ r. r.now) result ≡ after_frac bytes.now }
{
    match bytes {
        [b'.', rest @ ..] => after_some_digits(rest),
        _ => Some(bytes),
    }
}

fn after_sign(bytes: &[u8]) -> &[u8]
    ensures { result.now ≡ after_sign bytes.now }
{
    match bytes {
        [b'+' | b'-', rest @ ..] => rest,
        _ => bytes,
    }
}

fn after_exp(bytes: &[u8]) -> Option<&[u8]>
    ensures { option_map (λ r. r.now) result ≡ after_exp bytes.now }
{
    match bytes {
        [b'e' | b'E', rest @ ..] => after_some_digits(after_sign(rest)),
        _ => Some(bytes),
    }
}

/// The bytes behind a number (RFC 8259, section 6).
fn after_number(bytes: &[u8]) -> Option<&[u8]>
    ensures { option_map (λ r. r.now) result ≡ after_number bytes.now }
{
    let rest = after_int(after_minus(bytes))?;
    let rest = after_frac(rest)?;
    after_exp(rest)
}

/// The bytes behind a number, which has to stand here.
pub fn past_number(bytes: &[u8]) -> Result<&[u8], JsonError>
    ensures { Tells (λ r. r.now) result (after_number bytes.now) }
{
    match after_number(bytes) {
        Some(rest) => Ok(rest),
        None => Err(JsonError::NotJson),
    }
}
