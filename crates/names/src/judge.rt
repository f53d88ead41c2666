ghost use Rattle.std.specs.Prelude.{◌≡◌};
ghost use Rattle.names.specs.Names.{is_name, plain, dot};
ghost use Rattle.names.specs.Names.{Bytes};
ghost use Rattle.names.specs.Glyphs.{Stands};

use crate::limits::NAME_MAX;

// What a byte is to a name.
#[derive(Clone, Copy)]
pub enum Glyph {
    Plain,
    Dot,
    Other,
}

fn glyph_of(b: u8) -> Glyph
    ensures { Stands result b }
{
    match b as char {
        'a'..='z' | '0'..='9' | '_' | '-' => Glyph::Plain,
        '.' => Glyph::Dot,
        _ => Glyph::Other,
    }
}

/// Whether the bytes are a name.
pub fn is_name(bytes: &[u8]) -> bool
    ensures { result ≡ is_name bytes.now }
{
    if bytes.len() > NAME_MAX {
        return false;
    }
    let mut after_dot = true;
    for b in bytes {
        match glyph_of(*b) {
            Glyph::Plain => after_dot = false,
            Glyph::Dot => {
                if after_dot {
                    return false;
                }
                after_dot = true;
            }
            Glyph::Other => return false,
        }
    }
    !after_dot
}
