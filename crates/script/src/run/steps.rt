ghost use Rattle.std.specs.Prelude.{◌≡◌, ℕ, ◌<◌, false, [], length};
ghost use Rattle.names.specs.Spelled.{spelled};
ghost use Rattle.script.specs.Pages.{content};
ghost use Rattle.script.specs.Tree.{full, lacking, offer, mode_after, with_entry};
ghost use Rattle.script.specs.Made.{entries as made};
ghost use Rattle.script.specs.View.{view, Went, Stepped, Asks, tree_of, onward, offered, Lacks};
ghost use Rattle.script.specs.declared.word.Mode.TheVariants.{Running as InRunning};
ghost use Rattle.script.specs.declared.entry.Kind.TheVariants.{Needed as AsNeeded, Absent as AsAbsent};

use super::{Question, Run, Work};
use crate::entry::{Entries, Kind};
use crate::lines::cut;
use crate::page::Page;
use crate::template::Template;
use crate::word::{Mode, Spelled, Word, read_word};
use faults::ScriptFault;

impl<'a> Run<'a> {
    /// Reads one line.
    fn read_line(&mut self) -> Result<Option<Question>, ScriptFault>
        requires { 0 < length self.old.rest.now }
        ensures tells { Went result (view self.new) (tree_of (view self.old)) }
        ensures falls { length self.new.rest.now < length self.old.rest.now }
    {
        let (line, behind) = cut(self.rest, b'\n');
        self.rest = behind;
        self.line += 1;
        let (word, text) = read_word(line);
        match (self.work.mode, word) {
            (Mode::Skipping, _) => {
                self.work.mode = Mode::Running;
                Ok(None)
            }
            (Mode::Running, Spelled::Nothing) => Ok(None),
            (Mode::Running, Spelled::Unknown) => Err(ScriptFault::UnknownWord),
            (Mode::Running, Spelled::Known(word, form)) => {
                let stem = self.stem;
                self.work.perform(word, form, Template { text, stem })
            }
        }
    }

    /// Reads lines until the run asks or ends.
    pub fn next(&mut self) -> Result<Option<Question>, ScriptFault>
        ensures tells { Stepped result (view self.new) (tree_of (view self.old)) }
        ensures falls { Asks result → length self.new.rest.now < length self.old.rest.now }
    {
        while !self.rest.is_empty() {
            if let Some(question) = self.read_line()? {
                return Ok(Some(question));
            }
        }
        Ok(None)
    }

    /// Answers a question: the name is absent.
    pub fn absent(&mut self, question: Question) -> Result<(), ScriptFault>
        ensures keeps { (self.new.rest.now ≡ self.old.rest.now) × (self.new.line ≡ self.old.line) }
        ensures tells { Lacks result self.old.line (view self.new)
            (lacking question.word (full (view self.old).made) self.old.line
            (onward (view self.old) (mode_after question.word) (with_entry (view self.old).made AsAbsent (spelled question.name) []) (view self.old).page)) }
    {
        match (question.word, self.work.entries.is_full()) {
            (Word::Need, _) => return Err(ScriptFault::Absent),
            (_, true) => return Err(ScriptFault::TooManyEntries),
            (Word::IfHas, false) => self.work.mode = Mode::Skipping,
            (_, false) => self.work.mode = Mode::Running,
        }
        self.work
            .entries
            .push(Kind::Absent, question.name, Page::new());
        Ok(())
    }

    /// Whether a name that is there is wanted, or else the fault of the question.
    pub fn refusal(&self, question: Question) -> Result<(), ScriptFault>
        ensures { offered result ≡ offer question.word (full (view self.now).made) }
    {
        match (question.word, self.work.entries.is_full()) {
            (Word::IfCreate, _) => Err(ScriptFault::Present),
            (_, true) => Err(ScriptFault::TooManyEntries),
            (_, false) => Ok(()),
        }
    }

    /// Answers a question that has no refusal: the name is there, with these bytes.
    pub fn present(&mut self, question: Question, bytes: Page)
        ensures keeps { self.new.rest.now ≡ self.old.rest.now }
        ensures tells { full (view self.old).made ≡ false → tree_of (view self.new)
            ≡ onward (view self.old) InRunning (with_entry (view self.old).made AsNeeded (spelled question.name) (content bytes)) (view self.old).page }
    {
        self.work.mode = Mode::Running;
        self.work.entries.push(Kind::Needed, question.name, bytes);
    }

    /// A run of a script from its start, behind the entries that the search for it made.
    pub fn new(stem: &'a [u8], text: &'a Page, entries: Entries) -> Self
        ensures { view result ≡ record { stem = stem.entry.now; mode = InRunning; line = 0; made = made entries; page = []; rest = content text.now } }
    {
        Run {
            stem,
            rest: text.as_bytes(),
            line: 0,
            work: Work {
                mode: Mode::Running,
                page: Page::new(),
                entries,
            },
        }
    }

    /// The number of the line that was read last.
    pub fn line(&self) -> u16
        ensures { result ≡ self.now.line }
    {
        self.line
    }

    /// The page as far as the run has come.
    pub fn page(&self) -> &Page
        ensures { result.now ≡ self.now.work.page }
    {
        &self.work.page
    }
}
