ghost use Rattle.std.specs.Prelude.{◌≡◌, ◌&&◌, slice_index};
ghost use Rattle.protocol.specs.Decimals.{digit, starts_well, decimal_up_to, number_of};

use std::str;

// The digits of the largest u32.
const DIGITS_MAX: usize = 10;

// Whether a number may start so: with a digit, which is `0` only where it stands alone.
fn has_lawful_start(bytes: &[u8]) -> bool
    ensures { result ≡ (starts_well bytes.now && digit (slice_index bytes.now 0)) }
{
    matches!(bytes, [b'0'] | [b'1'..=b'9', ..])
}

/// The number up to `most` that the bytes write in decimal without a leading zero, if they write one.
#[tactic(auto, using(crate::proofs::Readings::read, crate::proofs::Readings::unread, crate::proofs::Readings::too_long))]
pub fn decimal(bytes: &[u8], most: u32) -> Option<u32>
    ensures { result ≡ decimal_up_to most bytes.now }
{
    // Refused by its length before any of it is read, so that a long word costs no more than a short one.
    if bytes.len() > DIGITS_MAX || !has_lawful_start(bytes) {
        return None;
    }
    let value = str::from_utf8(bytes).ok()?.parse::<u32>().ok()?;
    (value <= most).then_some(value)
}

/// The number from 0 to 65,535 that the bytes write so, if they write one.
pub(crate) fn number(bytes: &[u8]) -> Option<u16>
    ensures { result ≡ number_of bytes.now }
{
    u16::try_from(decimal(bytes, u16::MAX.into())?).ok()
}
