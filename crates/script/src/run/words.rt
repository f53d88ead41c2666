ghost use Rattle.std.specs.Prelude.{[], ◌∷◌, ◌++◌};
ghost use Rattle.names.specs.Spelled.{spelled};
ghost use Rattle.script.specs.Templates.{meant};
ghost use Rattle.script.specs.Pages.{content};
ghost use Rattle.script.specs.Tree.{entered, adding, copying, asking, formed};
ghost use Rattle.script.specs.Made.{entries as made};
ghost use Rattle.script.specs.View.{Plays};
ghost use Rattle.script.specs.declared.word.Rest.TheVariants.{Name as AsName};
ghost use Rattle.script.specs.declared.entry.Kind.TheVariants.{Needed as AsNeeded};

use super::{Question, Work};
use crate::entry::Kind;
use crate::page::Page;
use crate::template::Template;
use crate::word::{Mode, Rest, Word};
use faults::ScriptFault;
use names::Name;

impl Work {
    /// `say`: the text and a line's end go onto the page.
    fn say(&mut self, text: Template) -> Result<Option<Question>, ScriptFault>
        ensures { Plays self.old self.new result (adding (content self.old.page) (meant text.entry ++ (10 ∷ []))) }
    {
        let mut line = Page::filled(text).ok_or(ScriptFault::PageTooLong)?;
        line.append(b"\n")?;
        self.page.append(line.as_bytes())?;
        Ok(None)
    }

    /// `copy`: the bytes of a name that was needed go onto the page.
    fn copy(&mut self, name: &Name) -> Result<Option<Question>, ScriptFault>
        ensures { Plays self.old self.new result
            (copying (content self.old.page) (entered AsNeeded (spelled name.now) (made self.old.entries))) }
    {
        let bytes = self
            .entries
            .find(Kind::Needed, name)
            .ok_or(ScriptFault::NotNeeded)?;
        self.page.append(bytes)?;
        Ok(None)
    }

    /// `need`, `ifcreate` and `ifhas`: asks what the name is, unless that was asked before.
    fn ask(&mut self, word: Word, name: Name) -> Result<Option<Question>, ScriptFault>
        ensures { Plays self.old self.new result (asking word (spelled name) (made self.old.entries)) }
    {
        let needed = self.entries.has(Kind::Needed, &name);
        let absent = self.entries.has(Kind::Absent, &name);
        match (word, needed, absent) {
            (_, false, false) => Ok(Some(Question { word, name })),
            (Word::Need, false, true) => Err(ScriptFault::Absent),
            (Word::IfCreate, true, _) => Err(ScriptFault::Present),
            (Word::IfHas, false, true) => {
                self.mode = Mode::Skipping;
                Ok(None)
            }
            (_, _, _) => Ok(None),
        }
    }

    /// A word with a name behind it.
    fn name_word(&mut self, word: Word, text: Template) -> Result<Option<Question>, ScriptFault>
        ensures { Plays self.old self.new result
            (formed word AsName (made self.old.entries) (content self.old.page) (meant text.entry)) }
    {
        let name = text.name().ok_or(ScriptFault::NotAName)?;
        match word {
            Word::Copy => self.copy(&name),
            _ => self.ask(word, name),
        }
    }

    /// Does what a word says, with the text behind it.
    pub(super) fn perform(
        &mut self,
        word: Word,
        form: Rest,
        text: Template,
    ) -> Result<Option<Question>, ScriptFault>
        ensures { Plays self.old self.new result
            (formed word form (made self.old.entries) (content self.old.page) (meant text.entry)) }
    {
        match form {
            Rest::Text => self.say(text),
            Rest::Name => self.name_word(word, text),
        }
    }
}
