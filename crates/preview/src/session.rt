ghost use Rattle.std.specs.Prelude.{◌≡◌, ◌<◌, ◌≤◌, [], ◌++◌, map, length, MatchOption, MatchResult};
ghost use Rattle.std.specs.Option.{option_map};
ghost use Rattle.names.specs.Limits.{page_max};
ghost use Rattle.names.specs.Names.{Bytes};
ghost use Rattle.faults.specs.Trails.{steps};
ghost use Rattle.script.specs.Pages.{content};
ghost use Rattle.clean.specs.Files.{laid};
ghost use Rattle.clean.specs.Evaluate.{clean};
ghost use Rattle.protocol.specs.Substitutes.{newline, bar, replaced};
ghost use Rattle.protocol.specs.Views.{request};
ghost use Rattle.preview.specs.Session.{laying, taking, paging, answering, command_in, responding, reply_line};
ghost use Rattle.preview.specs.Replied.{replied, done_with, page_with, made_with, IfAnswered, Answers};
ghost use Rattle.preview.specs.declared.session.Refused.TheVariants.{Cause as ByCause, OutOfMemory as ByMemory};

use clean::evaluate::clean_page;
use clean::{Cause, Fault, Files};
use names::Name;
use protocol::substitute::substitute;
use protocol::{Answer, BAR, Command, NEWLINE};
use script::Page;
use std::alloc::AllocError;

/// Why a line's call does not end well: it is refused, or there is no memory for it.
#[derive(Clone, Copy)]
pub enum Refused {
    Cause(Cause),
    OutOfMemory(AllocError),
}

impl From<Cause> for Refused {
    ghost from_gives = { λ why r. r ≡ ByCause why };

    fn from(why: Cause) -> Refused {
        Refused::Cause(why)
    }
}

impl From<AllocError> for Refused {
    ghost from_gives = { λ why r. r ≡ ByMemory why };

    fn from(why: AllocError) -> Refused {
        Refused::OutOfMemory(why)
    }
}

/// The text with byte 10 for each `|`, if it is not too long for a file.
fn decode(text: &[u8]) -> Option<Page>
    ensures { MatchOption result (page_max < length text.now) (λ p. (length text.now ≤ page_max) × (content p ≡ map (replaced bar newline) text.now)) }
{
    let mut page = Page::new();
    for b in text {
        let byte = [substitute(*b, BAR, NEWLINE)];
        page.append(&byte).ok()?;
    }
    Some(page)
}

/// Lays a file; `|` in the text stands for byte 10.
fn lay(files: &mut Files, name: &[u8], text: &[u8]) -> Result<(), Refused>
    ensures { IfAnswered result (λ r. Answers (laying (laid files.old) name.now text.now) (replied done_with r []) (laid files.new)) }
{
    let name = Name::new(name).ok_or(Cause::Misnamed)?;
    let file = decode(text).ok_or(Cause::Oversize)?;
    files.lay(name, file)?;
    Ok(())
}

/// Takes a laid file away.
fn take(files: &mut Files, name: &[u8]) -> Result<(), Cause>
    ensures { Answers (taking (laid files.old) name.now) (replied done_with result []) (laid files.new) }
{
    let name = Name::new(name).ok_or(Cause::Misnamed)?;
    if files.take(&name) {
        Ok(())
    } else {
        Err(Cause::Unknown)
    }
}

/// The clean page of a name.
fn page(files: &Files, name: &[u8], fault: &mut Fault) -> Result<Page, Cause>
    ensures { replied page_with result (steps fault.new.trail) ≡ paging (clean (laid files.now) name.now) }
{
    clean_page(files, name, fault).map_err(|_| fault.cause)
}

/// Does what a line asks for; the trail of a refusal stands in the lent fault.
fn perform(
    files: &mut Files,
    command: Option<Command>,
    fault: &mut Fault,
) -> Result<Option<Page>, Refused>
    requires { steps fault.old.trail ≡ [] }
    ensures { IfAnswered result (λ r. Answers (answering (laid files.old) (option_map request command.entry)) (replied made_with r (steps fault.new.trail)) (laid files.new)) }
{
    match command {
        Some(Command::Lay { name, text }) => lay(files, name, text)?,
        Some(Command::Take { name }) => take(files, name)?,
        Some(Command::Page { name }) => return Ok(Some(page(files, name, fault)?)),
        _ => return Err(Refused::Cause(Cause::Garbled)),
    }
    Ok(None)
}

/// The command that a line gives, `None` being an over-long line.
fn read<'a>(line: Option<&'a [u8]>) -> Option<Command<'a>>
    ensures { option_map request result ≡ command_in (option_map (λ x. x.now) line.entry) }
{
    Command::parse(line?)
}

/// Answers one line of the input, `None` being an over-long one: what it prints goes behind `out`. Where there is no
/// memory for the answer, nothing is printed.
pub fn respond(files: &mut Files, line: Option<&[u8]>, out: &mut Vec<u8>) -> Result<(), AllocError>
    ensures { MatchResult result (λ _. (out.new.items ≡ out.old.items ++ reply_line (responding (laid files.old) (option_map (λ x. x.now) line.entry)).0)
        × ((n : Bytes) → laid files.new n ≡ (responding (laid files.old) (option_map (λ x. x.now) line.entry)).1 n))
        (λ _. out.new.items ≡ out.old.items) }
{
    // A place to lend: what it holds is not read but where a page wrote it.
    let mut fault = Fault::new(Cause::Misnamed);
    match perform(files, read(line), &mut fault) {
        Ok(None) => Answer::Done.print_to(out),
        Ok(Some(page)) => Answer::Page(page.as_bytes()).print_to(out),
        Err(Refused::Cause(cause)) => {
            let trail = &fault.trail;
            Answer::No {
                number: cause.number(),
                trail,
            }
            .print_to(out)
        }
        Err(Refused::OutOfMemory(why)) => Err(why),
    }
}
