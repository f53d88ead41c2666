ghost use Rattle.std.specs.Prelude.{◌≡◌, map};
ghost use Rattle.protocol.specs.Substitutes.{replaced};

/// Ends a line, so that no line holds it.
pub const NEWLINE: u8 = b'\n';
/// Stands for `NEWLINE` in the texts and pages of a line.
pub const BAR: u8 = b'|';

/// The byte, or `to` where it is `from`.
pub fn substitute(b: u8, from: u8, to: u8) -> u8
    ensures { result ≡ replaced from to b }
{
    if b == from { to } else { b }
}

/// Writes `to` over each byte `from`.
pub fn replace(bytes: &mut [u8], from: u8, to: u8)
    ensures { bytes.new ≡ map (replaced from to) bytes.old }
{
    for b in bytes.iter_mut() {
        *b = substitute(*b, from, to);
    }
}
