// What each line adds to what was said before.

ghost use Rattle.std.specs.Prelude.{◌≡◌, ◌++◌, ◌∷◌, [], IfOk, is_some};
ghost use Rattle.bk_base.specs.Faults.{Gives};
ghost use Rattle.bk_conf.specs.Said.{is_there, name_cmp, named_at, nothing, value_at};
ghost use Rattle.bk_conf.specs.Steps as model;
ghost use Rattle.bk_conf.specs.Views.{said_of, words_of};

use crate::fault::{BuildKind, KindStop};
use crate::line::SubjectLine;
use crate::said::{Mention, Mentioned, Placed, Said};
use bk_base::{Bytes, Words};
use bk_level::{Level, MOST_LEVELS};
use bk_object::{Facts, Kind, LARGEST_QUOTA, MOST_SUBJECTS, Modes};
use bk_path::Path;
use std::alloc::{AllocError, Global};
use std::collections::BTreeMap;

/// How many lines there are at most.
const MOST_LINES: u8 = 16;

/// How many holds there are at most.
const MOST_HOLDS: usize = 65_535;

/// Whether a program has the name.
#[tactic(auto, using(crate::proofs::Words::value_at_words))]
pub fn has_words(words: &BTreeMap<Vec<u8>, Words>, name: &[u8]) -> bool
    ensures { result ≡ is_some (value_at name_cmp (words_of words.now.entries) name.now) }
{
    match words.get(name) {
        Some(_) => true,
        None => false,
    }
}

impl Said {
    /// Before the first line.
    pub fn new(alloc: Global) -> Said
        ensures { said_of result ≡ nothing }
    {
        Said {
            turns: None,
            levels: Vec::new(alloc),
            schedule: None,
            subjects: Vec::new(alloc),
            entries: BTreeMap::new(alloc),
            windows: BTreeMap::new(alloc),
            objects: BTreeMap::new(alloc),
            lines: 0,
            rows: BTreeMap::new(alloc),
            holds: BTreeMap::new(alloc),
            programs: Vec::new(alloc),
            words: BTreeMap::new(alloc),
            mentions: Vec::new(alloc),
        }
    }

    fn mention(&mut self, at: u32, what: Mention) -> Result<(), AllocError>
        ensures { IfOk result (λ _. said_of self.new ≡ record (said_of self.old) { mentions = (said_of self.old).mentions ++ named_at at what ∷ [] }) }
    {
        self.mentions.push(Mentioned { line: at, what })?;
        Ok(())
    }

    #[tactic(auto, unfolding(crate::specs::Steps::with_turns))]
    pub fn turns(&mut self, turns: u16) -> Result<(), KindStop>
        ensures { Gives (λ _. said_of self.new) result (model.with_turns (said_of self.old) turns) }
    {
        if self.turns.is_some() {
            return Err(KindStop::Bad(BuildKind::Doubled));
        }
        self.turns = Some(turns);
        Ok(())
    }

    #[tactic(auto, unfolding(crate::specs::Steps::with_level))]
    pub fn level(&mut self, level: Level) -> Result<(), KindStop>
        ensures { Gives (λ _. said_of self.new) result (model.with_level (said_of self.old) level) }
    {
        if self.levels.len() == MOST_LEVELS {
            return Err(KindStop::Bad(BuildKind::Range));
        }
        self.levels.push(level)?;
        Ok(())
    }

    #[tactic(auto, unfolding(crate::specs::Steps::with_schedule))]
    pub fn schedule(&mut self, at: u32, schedule: Bytes) -> Result<(), KindStop>
        ensures { Gives (λ _. said_of self.new) result (model.with_schedule (said_of self.old) at schedule) }
    {
        if self.schedule.is_some() {
            return Err(KindStop::Bad(BuildKind::Doubled));
        }
        for subject in schedule.as_slice() {
            self.mention(at, Mention::Subject(*subject))?;
        }
        self.schedule = Some(schedule);
        Ok(())
    }

    #[tactic(auto, unfolding(crate::specs::Steps::with_subject))]
    pub fn subject(&mut self, subject: SubjectLine) -> Result<(), KindStop>
        ensures { Gives (λ _. said_of self.new) result (model.with_subject (said_of self.old) subject) }
    {
        if self.subjects.len() == MOST_SUBJECTS as usize {
            return Err(KindStop::Bad(BuildKind::Range));
        }
        self.subjects.push(subject)?;
        Ok(())
    }

    #[tactic(auto, unfolding(crate::specs::Steps::with_entry))]
    pub fn entry(&mut self, at: u32, subject: u8, fault: u8, address: u16) -> Result<(), KindStop>
        ensures { Gives (λ _. said_of self.new) result (model.with_entry (said_of self.old) at subject fault address) }
    {
        if self.entries.contains_key(&(subject, fault)) {
            return Err(KindStop::Bad(BuildKind::Doubled));
        }
        self.entries.insert((subject, fault), address)?;
        self.mention(at, Mention::Subject(subject))?;
        Ok(())
    }

    #[tactic(auto, unfolding(crate::specs::Steps::with_window))]
    pub fn window(&mut self, at: u32, subject: u8, index: u8, path: Path) -> Result<(), KindStop>
        ensures { Gives (λ _. said_of self.new) result (model.with_window (said_of self.old) at subject index path) }
    {
        if self.windows.contains_key(&(subject, index)) {
            return Err(KindStop::Bad(BuildKind::Doubled));
        }
        self.windows.insert((subject, index), path)?;
        self.mention(at, Mention::Subject(subject))?;
        Ok(())
    }

    // The object names a program, or none.
    fn mention_program(
        &mut self,
        alloc: Global,
        at: u32,
        program: &Option<Bytes>,
    ) -> Result<(), AllocError>
        ensures { IfOk result (λ _. said_of self.new ≡ record (said_of self.old) { mentions = (said_of self.old).mentions ++ model.named_by at program.now }) }
    {
        if let Some(name) = program {
            let name = Bytes::from_vec(name.as_slice().to_vec(alloc)?);
            self.mention(at, Mention::Program(name))?;
        }
        Ok(())
    }

    #[tactic(auto, unfolding(crate::specs::Steps::with_object))]
    pub fn object(
        &mut self,
        alloc: Global,
        at: u32,
        path: Path,
        facts: Facts,
        program: Option<Bytes>,
    ) -> Result<(), KindStop>
        ensures { Gives (λ _. said_of self.new) result (model.with_object (said_of self.old) at path facts program) }
    {
        if self.objects.len() == LARGEST_QUOTA as usize {
            return Err(KindStop::Bad(BuildKind::Range));
        }
        let is_line = matches!(facts.kind, Kind::Line(_));
        if is_line && self.lines == MOST_LINES {
            return Err(KindStop::Bad(BuildKind::Range));
        }
        if self.objects.contains_key(&path) {
            return Err(KindStop::Bad(BuildKind::Doubled));
        }
        self.mention_program(alloc, at, &program)?;
        self.objects.insert(path, Placed { facts, program })?;
        if is_line {
            self.lines += 1;
        }
        Ok(())
    }

    #[tactic(auto, unfolding(crate::specs::Steps::with_row))]
    pub fn row(&mut self, at: u32, path: Path, subject: u8, modes: Modes) -> Result<(), KindStop>
        ensures { Gives (λ _. said_of self.new) result (model.with_row (said_of self.old) at path subject modes) }
    {
        if self.rows.contains_key(&(path, subject)) {
            return Err(KindStop::Bad(BuildKind::Doubled));
        }
        self.rows.insert((path, subject), modes)?;
        self.mention(at, Mention::Subject(subject))?;
        self.mention(at, Mention::Object(path))?;
        Ok(())
    }

    #[tactic(auto, unfolding(crate::specs::Steps::with_hold))]
    pub fn hold(&mut self, at: u32, subject: u8, path: Path, modes: Modes) -> Result<(), KindStop>
        ensures { Gives (λ _. said_of self.new) result (model.with_hold (said_of self.old) at subject path modes) }
    {
        if self.holds.len() == MOST_HOLDS {
            return Err(KindStop::Bad(BuildKind::Range));
        }
        if self.holds.contains_key(&(subject, path)) {
            return Err(KindStop::Bad(BuildKind::Doubled));
        }
        self.holds.insert((subject, path), modes)?;
        self.mention(at, Mention::Subject(subject))?;
        Ok(())
    }

    /// What is named is there.
    pub fn has(&self, what: &Mention) -> bool
        ensures { result ≡ is_there (said_of self.now) what.now }
    {
        match what {
            Mention::Subject(subject) => (*subject as usize) < self.subjects.len(),
            Mention::Object(path) => self.objects.contains_key(path),
            Mention::Program(name) => has_words(&self.words, name.as_slice()),
        }
    }
}
