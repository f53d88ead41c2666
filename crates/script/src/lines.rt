ghost use Rattle.std.specs.Prelude.{◌≡◌, ◌<◌, ◌==◌, length, position};
ghost use Rattle.script.specs.Lines.{before, after};

/// The place of the first byte `at`.
fn place_of(text: &[u8], at: u8) -> Option<usize>
    ensures { result ≡ position (λ b. b == at) text.now }
{
    text.iter().position(|b| *b == at)
}

/// What stands before the first byte `at`, and behind it.
// Not `divide` of `protocol`, which answers `None` where no such byte stands; what the two share is std's `position`.
#[tactic(auto, using(crate::proofs::Cuts::front_at, crate::proofs::Cuts::behind_at, crate::proofs::Cuts::front_whole, crate::proofs::Cuts::behind_none))]
pub(crate) fn cut(text: &[u8], at: u8) -> (&[u8], &[u8])
    ensures front { result.0.now ≡ before at text.now }
    ensures behind { result.1.now ≡ after at text.now }
    ensures shorter { 0 < length text.now → length result.1.now < length text.now }
{
    match place_of(text, at) {
        Some(i) => (&text[..i], &text[i + 1..]),
        None => (text, &[]),
    }
}
