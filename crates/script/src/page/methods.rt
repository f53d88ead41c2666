ghost use Rattle.std.specs.Prelude.{◌≡◌, ℕ, ◌+◌, ◌<◌, ◌≤◌, [], ◌++◌, length, if◌then◌else◌, is_ok, MatchOption, nat_le};
ghost use Rattle.names.specs.Limits.{page_max};
ghost use Rattle.faults.specs.declared.script_fault.ScriptFault.TheVariants.{PageTooLong};
ghost use Rattle.script.specs.Templates.{meant};
ghost use Rattle.script.specs.Pages.{content};

use super::{Page, PageFull};
use crate::template::Template;
use faults::ScriptFault;
use inline_vec::InlineVec;

impl Page {
    /// A page with nothing on it.
    pub fn new() -> Page
        ensures { content result ≡ [] }
    {
        Page {
            bytes: InlineVec::new(0),
        }
    }

    /// Adds the text, or says that there is no room for it and changes nothing.
    pub fn append(&mut self, text: &[u8]) -> Result<(), PageFull>
        ensures fits { is_ok result ≡ nat_le (length (content self.old) + length text.now) page_max }
        ensures after { content self.new ≡ (if is_ok result then content self.old ++ text.now else content self.old) }
    {
        self.bytes.try_extend(text).map_err(|_| PageFull)
    }

    /// The text with the stem in place of each `%`, if that is not too long.
    pub(crate) fn filled(text: Template) -> Option<Page>
        ensures { MatchOption result (page_max < length (meant text.entry)) (λ p. content p ≡ meant text.entry) }
    {
        text.fill().map(|bytes| Page { bytes })
    }

    /// The bytes of the page.
    pub fn as_bytes(&self) -> &[u8]
        ensures value { result.now ≡ content self.now }
        ensures short { length result.now ≤ page_max }
    {
        self.bytes.as_slice()
    }
}

impl From<PageFull> for ScriptFault {
    ghost from_gives = { λ _ r. r ≡ PageTooLong };

    fn from(_: PageFull) -> ScriptFault {
        ScriptFault::PageTooLong
    }
}
