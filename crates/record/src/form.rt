ghost use Rattle.std.specs.Prelude.{◌≡◌, ◌+◌, true, false, map, length, ◌==◌, MatchOption};
ghost use Rattle.record.specs.Read.{number_of_four, count_in, pair_in};
ghost use Rattle.record.specs.Formed.{body_stands, bodies_stand, well_formed};

use crate::decode::{entry_of, pair_of};
use crate::limits::{HEADER_SIZE, PAIR_SIZE};
use names::limits::ENTRIES_MAX;

// Where the body that the pair names ends, if it starts at `at`, lies within the bytes and is lawful.
fn body_end(bytes: &[u8], at: usize, pair: [u8; PAIR_SIZE]) -> Option<usize>
    ensures { MatchOption result (body_stands at (pair_in pair) bytes.now ≡ false) (λ e. (body_stands at (pair_in pair) bytes.now ≡ true) × (e ≡ at + (pair_in pair).1)) }
{
    let (offset, len) = pair_of(pair);
    if offset != at {
        return None;
    }
    let end = offset + len;
    entry_of(bytes.get(offset..end)?)?;
    Some(end)
}

// Where the last of the bodies that the pairs name ends, if they stand one behind the other from `at` on.
fn bodies_end(bytes: &[u8], at: usize, pairs: &[[u8; PAIR_SIZE]]) -> Option<usize>
    ensures { MatchOption result (bodies_stand at (map pair_in pairs.now) bytes.now ≡ false) (λ e. bodies_stand at (map pair_in pairs.now) bytes.now ≡ (e == length bytes.now)) }
{
    let mut end = at;
    for pair in pairs {
        end = body_end(bytes, end, *pair)?;
    }
    Some(end)
}

// The stamp and the number of entries, if the bytes have the form of a record.
pub(crate) fn header_of(bytes: &[u8]) -> Option<(u32, u8)>
    ensures { MatchOption result (well_formed bytes.now ≡ false) (λ h. (well_formed bytes.now ≡ true) × (h ≡ (number_of_four bytes.now, count_in bytes.now))) }
{
    let [s0, s1, s2, s3, count] = *bytes.first_chunk::<HEADER_SIZE>()?;
    let entries = usize::from(count);
    if entries == 0 {
        return None;
    }
    if entries > ENTRIES_MAX {
        return None;
    }
    let start = HEADER_SIZE + PAIR_SIZE * entries;
    let (pairs, _) = bytes.get(HEADER_SIZE..start)?.as_chunks();
    if bodies_end(bytes, start, pairs)? != bytes.len() {
        return None;
    }
    Some((u32::from_le_bytes([s0, s1, s2, s3]), count))
}
