ghost use Rattle.std.specs.Prelude.{◌≡◌, ◌∷◌, ◌++◌, is_ok, IfOk, if◌then◌else◌, codes, decimal};
ghost use Rattle.faults.specs.Trails.{steps};
ghost use Rattle.protocol.specs.Answers.{refusal_text, page_text, answer_text, answer_line};

use crate::substitute::{BAR, NEWLINE, substitute};
use faults::Trail;
use std::alloc::{AllocError, Global};

/// What a line is answered.
#[derive(Clone, Copy)]
pub enum Answer<'a> {
    /// The call ended well.
    Done,
    /// A build ended well: so many pages changed, and so many were made again the same.
    Counts { changed: u16, same: u16 },
    /// A page.
    Page(&'a [u8]),
    /// A refusal, by its number, with its trail.
    // A number and no cause: a line says no more of it, and any number has its line.
    No { number: u8, trail: &'a Trail },
}

fn counts_text(heap: Global, changed: u16, same: u16) -> Result<Vec<u8>, AllocError>
    ensures { IfOk result (λ v. v.items ≡ codes "ok " ++ (decimal changed ++ (32 ∷ decimal same))) }
{
    let text = format!(in heap; "ok {changed} {same}")?;
    Ok(text.into_bytes())
}

fn page_text(heap: Global, page: &[u8]) -> Result<Vec<u8>, AllocError>
    ensures { IfOk result (λ v. v.items ≡ codes "page " ++ page_text page.now) }
{
    let shown = page.iter().map(|b| substitute(*b, NEWLINE, BAR));
    b"page ".iter().copied().chain(shown).collect(heap)
}

#[tactic(auto, using(crate::proofs::Prints::trail_more, crate::proofs::Prints::trail_all))]
fn refusal_text(heap: Global, number: u8, trail: &Trail) -> Result<Vec<u8>, AllocError>
    ensures { IfOk result (λ v. v.items ≡ refusal_text number (steps trail.now)) }
{
    let mut text = format!(in heap; "no {number}")?;
    for frame in trail.frames() {
        write!(text, " {frame}")?;
    }
    Ok(text.into_bytes())
}

// Bytes and no Display: a page need not be text.
impl Answer<'_> {
    // The answer without the byte 10 that ends its line.
    fn text(&self, heap: Global) -> Result<Vec<u8>, AllocError>
        ensures { IfOk result (λ v. v.items ≡ answer_text self.now) }
    {
        match *self {
            Answer::Done => Vec::from_slice(heap, b"ok"),
            Answer::Counts { changed, same } => counts_text(heap, changed, same),
            Answer::Page(page) => page_text(heap, page),
            Answer::No { number, trail } => refusal_text(heap, number, trail),
        }
    }

    /// Appends the answer's line to what is to be printed. For want of memory `out` stays as it was.
    pub fn print_to(&self, out: &mut Vec<u8>) -> Result<(), AllocError>
        ensures { out.new.items ≡ (if is_ok result then out.old.items ++ answer_line self.now else out.old.items) }
    {
        let mut line = self.text(*out.allocator())?;
        line.push(NEWLINE)?;
        out.extend_from_slice(line.as_slice())
    }
}
