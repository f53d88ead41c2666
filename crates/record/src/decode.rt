ghost use Rattle.std.specs.Prelude.{◌≡◌, ◌^◌, ◌<◌, true, false, MatchOption};
ghost use Rattle.record.specs.Values.{value_of};
ghost use Rattle.record.specs.Read.{entry_from, is_body, pair_in};

use crate::entry::{Entry, Kind};
use crate::limits::{HEAD_SIZE, PAIR_SIZE};
use names::Name;

// The offset and the length that a pair stands for.
pub(crate) fn pair_of(pair: [u8; PAIR_SIZE]) -> (usize, usize)
    ensures value { result ≡ pair_in pair }
    ensures small { (result.0 < 2 ^ 16) × (result.1 < 2 ^ 16) }
{
    let [o0, o1, l0, l1] = pair;
    let offset = u16::from_le_bytes([o0, o1]);
    let len = u16::from_le_bytes([l0, l1]);
    (usize::from(offset), usize::from(len))
}

// The entry that a body is, if it is one.
pub(crate) fn entry_of(body: &[u8]) -> Option<Entry>
    ensures { MatchOption result (is_body body.now ≡ false) (λ e. (is_body body.now ≡ true) × (value_of e ≡ entry_from body.now)) }
{
    let (head, name) = body.split_first_chunk::<HEAD_SIZE>()?;
    let [kind, l0, l1, s0, s1, s2, s3] = *head;
    let stamp = u32::from_le_bytes([s0, s1, s2, s3]);
    let kind = Kind::try_from((kind, stamp)).ok()?;
    let name = Name::new(name)?;
    let line = u16::from_le_bytes([l0, l1]);
    Some(Entry { name, line, kind })
}
