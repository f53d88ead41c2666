ghost use Rattle.std.specs.Prelude.{◌≡◌, ◌<◌, ◌≤◌, true, [], length, is_ok};
ghost use Rattle.names.specs.Spelled.{spelled};
ghost use Rattle.script.specs.Candidates.{candidates as all_candidates};
ghost use Rattle.script.specs.Tree.{query};
ghost use Rattle.script.specs.Made.{entries as made};
ghost use Rattle.script.specs.Search.{whole_run};
ghost use Rattle.script.specs.View.{view, tree_of, after_doing};
ghost use Rattle.clean.specs.Files.{laid};
ghost use Rattle.clean.specs.Status.{status as status_of};
ghost use Rattle.clean.specs.Told.{told};
ghost use Rattle.clean.specs.Evaluate.{clean, as_answer};
ghost use Rattle.clean.specs.Opening.{opening};
ghost use Rattle.clean.specs.Answered.{answered, yielded, sought, gets, finished, Told};
ghost use Rattle.clean.specs.Chains.{opened};

use crate::chain::Chain;
use crate::files::Files;
use crate::status::Status;
use faults::{Cause, Failed, Fault, ScriptFault};
use names::Name;
use script::{Candidate, Candidates, Entries, Kind, Page, Question, Run};

/// A script that was found for a target.
#[derive(Clone, Copy)]
pub struct Opening {
    script: Candidate,
    text: Page,
}

/// A target that is open, over the laid files: the chain ends in it.
#[derive(Clone, Copy)]
struct OpenTarget<'a> {
    files: &'a Files,
    chain: Chain,
    target: Name,
}

impl OpenTarget<'_> {
    /// Finds the target's script, and makes the entries of the search.
    // The entries are lent: they have some thirty times a page's bytes, which a result that held them would move.
    fn seek(&self, entries: &mut Entries) -> Result<Opening, Fault>
        requires { made entries.old ≡ [] }
        ensures { sought (spelled self.now.target) result entries.new (opening (laid self.now.files.now) (all_candidates (spelled self.now.target)) []) }
    {
        for script in Candidates::new(self.target) {
            if !entries.has(Kind::Absent, &script.script) {
                if entries.is_full() {
                    return Err(Fault::at(ScriptFault::TooManyEntries, self.target, 0));
                }
                if let Some(text) = self.files.get(&script.script) {
                    entries.push(Kind::Script, script.script, Page::new());
                    return Ok(Opening { script, text });
                }
                entries.push(Kind::Absent, script.script, Page::new());
            }
        }
        Err(Fault::at(ScriptFault::Absent, self.target, 0))
    }

    /// Finds the target's script, and runs it.
    #[cycle(drive_evaluate_fetch_tell)]
    fn evaluate(&self) -> Result<Page, Fault>
        requires { 0 < length (opened self.now.chain) }
        ensures { yielded result ≡ as_answer (finished (laid self.now.files.now) (opened self.now.chain) (spelled self.now.target) (whole_run (spelled self.now.target))) }
    {
        let mut entries = Entries::new();
        let opening = self.seek(&mut entries)?;
        let stem = opening.script.stem(self.target.as_bytes());
        let mut run = Run::new(stem, &opening.text, entries);
        self.drive(&mut run)
    }

    /// Goes on with a run until it ends.
    #[cycle(drive_evaluate_fetch_tell)]
    fn drive(&self, run: &mut Run) -> Result<Page, Fault>
        requires { 0 < length (opened self.now.chain) }
        ensures { yielded result ≡ as_answer (finished (laid self.now.files.now) (opened self.now.chain) (spelled self.now.target) (tree_of (view run.old))) }
    {
        loop {
            match run.next() {
                Ok(None) => return Ok(*run.page()),
                Ok(Some(question)) => self.tell(run, question)?,
                Err(why) => return Err(Fault::at(why, self.target, run.line())),
            }
        }
    }

    /// Answers one question of a run.
    // Matches and no `map_err`: tried, and in this ring of calls the proof did not find what a closure makes of the error.
    #[cycle(drive_evaluate_fetch_tell)]
    fn tell(&self, run: &mut Run, question: Question) -> Result<(), Fault>
        requires { 0 < length (opened self.now.chain) }
        ensures value { Told result (laid self.now.files.now) (opened self.now.chain) (spelled self.now.target)
            (after_doing (view run.old) (query question.word (spelled question.name))) (tree_of (view run.new)) }
        ensures falls { length run.new.rest.now ≤ length run.old.rest.now }
    {
        let status = Status::of(self.files, &question.name);
        if let Status::Absent = status {
            if let Err(why) = run.absent(question) {
                return Err(Fault::at(why, self.target, run.line()));
            }
            return Ok(());
        }
        if let Err(why) = run.refusal(question) {
            return Err(Fault::at(why, self.target, run.line()));
        }
        match self.fetch(&question.name, status) {
            Ok(bytes) => {
                run.present(question, bytes);
                Ok(())
            }
            Err(mut fault) => {
                fault.pass(self.target, run.line());
                Err(fault)
            }
        }
    }

    /// What a name yields to the run of the target.
    #[cycle(drive_evaluate_fetch_tell)]
    fn fetch(&self, name: &Name, status: Status) -> Result<Page, Fault>
        requires { told status ≡ status_of (laid self.now.files.now) (spelled name.now) }
        ensures { yielded result ≡ as_answer (gets (laid self.now.files.now) (opened self.now.chain) (spelled name.now)) }
    {
        match status {
            Status::Absent => Err(Fault::new(ScriptFault::Absent.into())),
            Status::Source(bytes) => Ok(bytes),
            Status::Target => {
                if self.chain.contains(name) {
                    return Err(Fault::new(ScriptFault::Cycle.into()));
                }
                if self.chain.is_full() {
                    return Err(Fault::new(ScriptFault::TooDeep.into()));
                }
                let needed = OpenTarget {
                    files: self.files,
                    chain: self.chain.with(*name),
                    target: *name,
                };
                needed.evaluate()
            }
        }
    }
}

/// The clean page of a name, or why there is none.
fn page_of(files: &Files, name: &[u8]) -> Result<Page, Fault>
    ensures { yielded result ≡ clean (laid files.now) name.now }
{
    let target = Name::new(name).ok_or(Fault::new(Cause::Misnamed))?;
    match Status::of(files, &target) {
        Status::Absent => Err(Fault::new(Cause::Unknown)),
        Status::Source(_) => Err(Fault::new(Cause::Plain)),
        Status::Target => {
            let chain = Chain::new().with(target);
            let asked = OpenTarget {
                files,
                chain,
                target,
            };
            asked.evaluate()
        }
    }
}

/// Clean evaluation of a name that is given as bytes: its page over the laid files, as from bare files. Where there is
/// none, the fault stands in the lent place, which a page leaves as it was.
// A match and no `map_err`: of a place that a closure writes, the proof does not know what it holds.
pub fn clean_page(files: &Files, name: &[u8], fault: &mut Fault) -> Result<Page, Failed>
    ensures value { answered result fault.new ≡ clean (laid files.now) name.now }
    ensures kept { is_ok result ≡ true → fault.new ≡ fault.old }
{
    match page_of(files, name) {
        Ok(page) => Ok(page),
        Err(why) => {
            *fault = why;
            Err(Failed)
        }
    }
}
