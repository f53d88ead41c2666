ghost use Rattle.std.specs.Prelude.{◌≡◌, ◌/◌, ◌%◌, ◌<◌, [], ◌∷◌, ◌++◌, IfSome, IfOk, vec_items, string_bytes, OnOk};
ghost use Rattle.std.specs.Option.{option_map};
ghost use Rattle.recordtext.specs.Hex.{digit, digit_value, byte_value, hex_text, hex_bytes, HexBack};

use std::alloc::{AllocError, Global};

// The number that a digit stands for. Not `to_digit`: it takes capitals too, and the form has small letters alone.
fn value_of(digit: u8) -> Option<u8>
    ensures value { result ≡ digit_value «digit» }
    ensures bound { IfSome result (λ n. n < 16) }
{
    match digit {
        b'0'..=b'9' => Some(digit - b'0'),
        b'a'..=b'f' => Some(digit - b'a' + 10),
        _ => None,
    }
}

// The byte of two digits.
fn byte_of(high: u8, low: u8) -> Option<u8>
    ensures { result ≡ byte_value (digit_value high) (digit_value low) }
{
    Some(16 * value_of(high)? + value_of(low)?)
}

// The digit of a number below 16.
fn digit_of(n: u8) -> u8
    requires { n < 16 }
    ensures value { result ≡ digit n }
    ensures ascii { result < 128 }
{
    if n < 10 { b'0' + n } else { b'a' + (n - 10) }
}

// The two digits of a byte, behind what stands. No `{b:02x}`: a formatter made for each byte takes several times as long.
fn push_byte(text: &mut String, b: u8) -> Result<(), AllocError>
    ensures { OnOk result (string_bytes text.new ≡ string_bytes text.old ++ (digit (b / 16) ∷ digit (b % 16) ∷ [])) }
{
    text.push(digit_of(b / 16) as char)?;
    text.push(digit_of(b % 16) as char)?;
    Ok(())
}

/// The hex digits of the bytes.
pub fn hex_of(heap: Global, bytes: &[u8]) -> Result<String, AllocError>
    ensures law { HexBack }
    ensures made { IfOk result (λ t. string_bytes t ≡ hex_text bytes.now) }
{
    let mut text = String::new(heap);
    for b in bytes {
        push_byte(&mut text, *b)?;
    }
    Ok(text)
}

/// The bytes that a text of hex digits stands for, if it is one.
pub fn bytes_of(heap: Global, text: &[u8]) -> Result<Option<Vec<u8>>, AllocError>
    ensures { IfOk result (λ o. option_map vec_items o ≡ hex_bytes text.now) }
{
    let (pairs, odd) = text.as_chunks::<2>();
    if !odd.is_empty() {
        return Ok(None);
    }
    let mut bytes = Vec::new(heap);
    // A byte that is no hex digit makes an `Ok(None)`, which `?` does not hand out; and `collect`'s clauses say nothing of an `Option`.
    for &[high, low] in pairs {
        let Some(b) = byte_of(high, low) else {
            return Ok(None);
        };
        bytes.push(b)?;
    }
    Ok(Some(bytes))
}
