// The tables as one store.

ghost use Rattle.std.specs.Prelude.{◌≡◌, ◌≢◌, Err, IsNone, OnErr, OnOk, ◌<◌, ◌≤◌, ◌*◌, ◌/◌, ◌%◌, ◌↔◌, [], true, false, length, option_map};
ghost use Rattle.std.specs.Prelude.{slice_get, take, IfOk, IsSome};
ghost use Rattle.std.specs.FinMap as map;
ghost use Rattle.bk_object.specs.Kinds.{is_directory};
ghost use Rattle.bk_frames.specs.Extents.{free_in, segments_of, sizes_of, IsApart, KeepsRoom};
ghost use Rattle.bk_access.specs.Held.{cleared};
ghost use Rattle.bk_level.specs.Levels.{most_levels};
ghost use Rattle.bk_object.specs.Limits.{largest_quota, words_of_block};
ghost use Rattle.bk_object.specs.Rows as rows;
ghost use Rattle.bk_path.specs.Paths.{parent};
ghost use Rattle.bk_state.specs.QueueCalls as queue_calls;
ghost use Rattle.bk_tree.specs.Kept.{HasBlocks, IsFit};
ghost use Rattle.bk_store.specs.Stored.{begun, byte_in, cell_of, extent_in, facts_in, has_place_in, level_number, may_put, may_rise};
ghost use Rattle.bk_store.specs.Stored.{message_in, modes_held, objects_of};
ghost use Rattle.bk_store.specs.Stored.{with_given, with_held, with_message, with_rescinded, with_typed, without_byte, without_group};
ghost use Rattle.bk_store.specs.Stored.{without_held, without_message, word_at, word_written, Fits, HasDirectory, HasLine, HasMailbox, HasOffset};
ghost use Rattle.bk_store.specs.Stored.{HasSegment, IsCreated, IsFreeLine, IsOneLess, IsThere};
ghost use Rattle.bk_core.specs.Memory.{kernel_blocks};
ghost use Rattle.bk_store.specs.Joined.{blocks_of, or_zero, with_some, zeros_of, AreExtentsApart, HaveKinds};

use crate::queues::{
    clear_input, clear_mailbox, empty_inputs, empty_mailboxes, put_at, take_at, take_typed, type_at,
};
use bitflags::Flags;
use bk_access::Access;
use bk_base::NoMemory;
use bk_core::{BLOCKS, BYTES_OF_BLOCK, Core, KERNEL_BLOCKS};
use bk_frames::Frames;
use bk_level::{Level, LevelTable};
use bk_object::{Facts, Kind, Modes, Row, Slot};
use bk_path::Path;
use bk_queue::{LineIn, Mailbox, Message};
use bk_quota::Cell;
use bk_tree::{Tree, TreeNo};
use std::alloc::Global;
use std::marker::Model;

/// The objects of a system with their contents, what each grants to whom, and the current access set.
///
/// A clause sees the list of levels, the number of lines, the map from paths to objects, and the set of subject, path
/// and mode. An object has its facts, where its words stand in core if it is a segment, and what waits in it. The words
/// themselves are those of the core that a call is given, always the same one: its blocks above the kernel's are the
/// store's. Subjects are below `MOST_SUBJECTS`. All memory is taken by `reserve`.
#[derive(Drop)]
pub struct Store {
    levels: LevelTable,
    lines: u8,
    tree: Tree,
    access: Access,
    frames: Frames,
    mailboxes: Vec<Mailbox>,
    inputs: Vec<LineIn>,
}

impl Model for Store {
    ghost use Rattle.bk_store.specs.Stored.{Stored};

    ghost Value = { Stored };

    ghost use Rattle.std.specs.Coded.{codes};
    ghost use Rattle.std.specs.FinMap as map;
    ghost use Rattle.std.specs.FinSet as set;
    ghost use Rattle.bk_store.specs.Codes.{entry_code};

    ghost coded = { Prim.hlevel (codes, map.code, set.code, entry_code) };

    ghost use Rattle.bk_store.specs.Joined.{store_of, tables_of, IsStore};

    ghost view = { λ s. store_of s.levels s.lines s.tree s.access (tables_of s.frames s.mailboxes.items s.inputs.items) };

    ghost invariant = { λ s. IsStore s.lines s.tree s.access (tables_of s.frames s.mailboxes.items s.inputs.items) };
}

impl Store {
    /// A store of root alone, of which nobody holds anything, for lines 0 to one below the number. All memory is taken
    /// here; `NoMemory` comes where the host has no more.
    pub fn reserve(
        alloc: Global,
        levels: LevelTable,
        root: Facts,
        lines: u8,
    ) -> Result<Store, NoMemory>
        requires directory { is_directory root.kind ≡ true }
        requires blocks { root.blocks ≡ 0 }
        requires quota { (1 ≤ root.quota) × (root.quota ≤ largest_quota) }
        requires level { root.level < length levels }
        ensures { IfOk result (λ store. store ≡ begun levels lines root) }
    {
        let slots = root.quota;
        let tree = Tree::reserve(alloc, slots, root)?;
        let access = Access::reserve(alloc, slots)?;
        let frames = Frames::reserve(alloc, KERNEL_BLOCKS, BLOCKS - KERNEL_BLOCKS, slots)?;
        let mailboxes = empty_mailboxes(alloc, slots)?;
        let inputs = empty_inputs(alloc, lines)?;
        Ok(Store {
            levels,
            lines,
            tree,
            access,
            frames,
            mailboxes,
            inputs,
        })
    }

    /// The facts of the object at the path: None exactly where no object is there.
    pub fn facts(&self, path: Path) -> Option<Facts>
        ensures { result ≡ facts_in self.now path }
    {
        match self.tree.find(path) {
            Some(slot) => Some(self.tree.facts(slot)),
            None => None,
        }
    }

    /// The modes by which the subject holds the object at the path now: none where no object is there.
    pub fn held(&self, subject: u8, path: Path) -> Modes
        requires { subject < rows.most_subjects }
        ensures { result ≡ modes_held self.now subject path }
    {
        match self.tree.find(path) {
            Some(slot) => self.access.modes(subject, slot),
            None => Modes::from_bits_retain(0),
        }
    }

    /// The subject holds the object at the path by these modes too. All else stays.
    pub fn hold(&mut self, subject: u8, path: Path, modes: Modes)
        requires subject { subject < rows.most_subjects }
        requires there { IsThere self.old path }
        ensures { self.new ≡ with_held subject path modes self.old }
    {
        let slot = self.tree.find(path).unwrap();
        self.access.add(subject, slot, modes);
    }

    /// The subject no longer holds the object at the path by these modes: nothing changes where no object is there, or of
    /// modes by which it isn't held. All else stays.
    pub fn release(&mut self, subject: u8, path: Path, modes: Modes)
        requires { subject < rows.most_subjects }
        ensures { self.new ≡ without_held subject path modes self.old }
    {
        if let Some(place) = self.tree.find(path) {
            self.access.remove(subject, place, modes);
        }
    }

    /// The row of the object at the path grants the subject these modes too. All else stays.
    pub fn give(&mut self, path: Path, subject: u8, modes: Modes)
        requires subject { subject < rows.most_subjects }
        requires there { IsThere self.old path }
        ensures { self.new ≡ with_given subject path modes self.old }
    {
        let slot = self.tree.find(path).unwrap();
        let held = self.tree.facts(slot).row;
        let row = given(held, subject, modes);
        self.tree.set_row(slot, row);
    }

    /// The row of the object at the path no longer grants the subject these modes, and the subject no longer holds the
    /// object by them (MTR-2997). All else stays.
    pub fn rescind(&mut self, path: Path, subject: u8, modes: Modes)
        requires subject { subject < rows.most_subjects }
        requires there { IsThere self.old path }
        ensures { self.new ≡ with_rescinded subject path modes self.old }
    {
        let slot = self.tree.find(path).unwrap();
        let mut row = self.tree.facts(slot).row;
        row.remove(subject, modes);
        self.tree.set_row(slot, row);
        self.access.remove(subject, slot, modes);
    }

    /// A new object with these facts is at the path: a segment whose words are zero, a mailbox or a line in which nothing
    /// waits. Taken goes before Quota, and where no object is created nothing changes. The words of the kernel's blocks
    /// stay in any case.
    pub fn create(&mut self, core: &mut Core, path: Path, facts: Facts) -> Result<(), TreeNo>
        requires below_root { path ≢ [] }
        requires parent { HasDirectory self.old (parent path) }
        requires fit { IsFit facts (level_number self.old (parent path)) }
        requires level { facts.level < length self.old.levels }
        requires line { IsFreeLine self.old facts.kind }
        ensures ok { OnOk result (IsCreated self.old self.new core.old.words core.new.words path facts) }
        ensures err { OnErr result ((self.new ≡ self.old) × (core.new ≡ core.old)) }
        ensures taken { (result ≡ Err TreeNo.Taken) ↔ IsThere self.old path }
        ensures quota { (result ≡ Err TreeNo.Quota) ↔ (IsNone (map.get self.old.objects path) × ¬ Fits self.old path facts) }
        ensures kernel { take (words_of_block * kernel_blocks) core.new.words ≡ take (words_of_block * kernel_blocks) core.old.words }
    {
        let kind = facts.kind;
        let blocks = facts.blocks;
        match self.tree.create(path, facts) {
            Ok(slot) => {
                self.tree.law_slots();
                self.tree.law_room();
                place_for(&mut self.frames, core, slot, kind, blocks);
                clear_mailbox(&mut self.mailboxes, slot);
                clear_input(&mut self.inputs, kind);
                Ok(())
            }
            Err(no) => Err(no),
        }
    }

    /// The object at the path and all its inferiors go, with all that any subject holds of them. All else stays.
    pub fn delete_group(&mut self, path: Path)
        requires below_root { path ≢ [] }
        requires there { IsThere self.old path }
        ensures { self.new ≡ without_group path self.old }
    {
        while self.remove_one(path) {}
    }

    // One object at or below the path goes, if there is one.
    fn remove_one(&mut self, of: Path) -> bool
        requires { of ≢ [] }
        ensures some { result ≡ true → IsOneLess self.old self.new of }
        ensures none { result ≡ false → (self.new ≡ self.old) × (without_group of self.old ≡ self.old) }
    {
        match self.tree.next_leaf(of) {
            Some(place) => {
                drop_all(&mut self.access, place);
                self.frames.free(place);
                self.tree.remove_leaf(place);
                true
            }
            None => false,
        }
    }

    /// The level with that number: None exactly where the list of levels has none.
    pub fn level(&self, n: u8) -> Option<Level>
        ensures { result ≡ slice_get self.now.levels n }
    {
        self.levels.get(n)
    }

    /// Whether all that the subject holds by write or by append may be held so at the level with that number too: by write
    /// what has that level, by append what dominates it (the *-property, ESD-TR-75-69).
    pub fn may_rise(&self, subject: u8, level: u8) -> bool
        requires subject { subject < rows.most_subjects }
        requires level { level < length self.now.levels }
        ensures { result ≡ may_rise self.now subject level }
    {
        self.tree.law_kept();
        self.tree.law_room();
        let current = self.levels.at(level);
        let slots = self.tree.facts(Slot { n: 0 }).quota;
        let mut from = 0u16;
        while let Some(slot) = self.access.next_put(subject, from, slots) {
            let object = self.levels.at(self.tree.facts(slot).level);
            if !may_put(self.access.modes(subject, slot), current, object) {
                return false;
            }
            from = slot.n + 1;
        }
        true
    }

    /// The cell that governs the directory at the path: its own where it has one, else that of its nearest ancestor with
    /// a cell.
    pub fn cell(&self, path: Path) -> Cell
        requires { HasDirectory self.now path }
        ensures { result ≡ cell_of self.now path }
    {
        let slot = self.tree.find(path).unwrap();
        self.tree.cell(slot)
    }

    /// The first block of the segment at the path and its number of blocks of 64 bytes: None exactly where no segment is
    /// there.
    pub fn extent(&self, path: Path) -> Option<(u32, u8)>
        ensures value { result ≡ option_map (λ e. (e.first, e.blocks)) (extent_in self.now path) }
        ensures there { IsSome result ↔ HasSegment self.now path }
    {
        match self.tree.find(path) {
            Some(slot) => self.frames.extent(slot),
            None => None,
        }
    }

    /// The first block of the segment at the path, its number of blocks, and the modes by which the subject holds it now: None
    /// exactly where no segment is there.
    pub fn shown(&self, subject: u8, path: Path) -> Option<(u32, u8, Modes)>
        requires { subject < rows.most_subjects }
        ensures { result ≡ option_map (λ e. (e.first, e.blocks, modes_held self.now subject path)) (extent_in self.now path) }
    {
        let slot = self.tree.find(path)?;
        let (first, blocks) = self.frames.extent(slot)?;
        Some((first, blocks, self.access.modes(subject, slot)))
    }

    /// There are at most `MOST_LEVELS` levels.
    pub fn law_levels(&self)
        ensures { length self.now.levels ≤ most_levels }
    {
        let _count = self.levels.len();
    }

    /// A segment has so many blocks as its facts say, 1 to 128, above the kernel's blocks, and apart from those of all other
    /// segments; messages wait in mailboxes alone, and bytes on lines alone.
    pub fn law_contents(&self)
        ensures kinds { HaveKinds self.now }
        ensures extents { AreExtentsApart self.now }
    {
        let _lines = self.lines;
    }

    /// The word at the offset in bytes of the segment at the path.
    pub fn word(&self, core: &Core, path: Path, offset: u16) -> u16
        requires even { offset % 2 ≡ 0 }
        requires inside { HasOffset self.now path offset }
        ensures { result ≡ word_at (offset / 2) (map.get (objects_of self.now core.now.words) path) }
    {
        let slot = self.tree.find(path).unwrap();
        let (first, _) = self.frames.extent(slot).unwrap();
        core.word(first * BYTES_OF_BLOCK + u32::from(offset))
    }

    /// The word at the offset in bytes of the segment at the path becomes this one. All else stays, the words
    /// of the kernel's blocks too.
    pub fn write_word(&self, core: &mut Core, path: Path, offset: u16, value: u16)
        requires even { offset % 2 ≡ 0 }
        requires inside { HasOffset self.now path offset }
        ensures words { objects_of self.now core.new.words ≡ word_written path (offset / 2) value (objects_of self.now core.old.words) }
        ensures kernel { take (words_of_block * kernel_blocks) core.new.words ≡ take (words_of_block * kernel_blocks) core.old.words }
    {
        let slot = self.tree.find(path).unwrap();
        let (first, _) = self.frames.extent(slot).unwrap();
        core.set_word(first * BYTES_OF_BLOCK + u32::from(offset), value);
    }

    /// The message waits in the mailbox at the path behind all others; where 16 wait it is lost and counted, in a count
    /// that stays at 65,535, and the answer is false. All else stays.
    pub fn put_message(&mut self, path: Path, words: [u16; 4]) -> bool
        requires { HasMailbox self.old path }
        ensures kept { result ≡ has_place_in self.old path }
        ensures rest { self.new ≡ with_message path words self.old }
    {
        let slot = self.tree.find(path).unwrap();
        put_at(&mut self.mailboxes, slot, words)
    }

    /// The oldest message of the mailbox at the path, which waits no longer, and the count of lost ones, which begins
    /// anew: None exactly where no message waits, and then nothing changes. All else stays.
    pub fn take_message(&mut self, path: Path) -> Option<Message>
        requires { HasMailbox self.old path }
        ensures message { result ≡ message_in self.old path }
        ensures rest { self.new ≡ without_message path self.old }
    {
        let slot = self.tree.find(path).unwrap();
        take_at(&mut self.mailboxes, slot)
    }

    /// The byte waits on the object of the line behind all others; it is lost where 64 wait, or where no object has the
    /// line. All else stays.
    pub fn type_byte(&mut self, line: u8, byte: u8)
        ensures { self.new ≡ with_typed line byte self.old }
    {
        if line < self.lines {
            type_at(&mut self.inputs, line, byte);
        }
    }

    /// The oldest byte of the line at the path, which waits no longer: None exactly where no byte waits, and then nothing
    /// changes. All else stays.
    pub fn take_byte(&mut self, path: Path) -> Option<u8>
        requires { HasLine self.old path }
        ensures byte { result ≡ byte_in self.old path }
        ensures rest { self.new ≡ without_byte path self.old }
    {
        let slot = self.tree.find(path).unwrap();
        let line = line_of(self.tree.facts(slot).kind).unwrap();
        take_typed(&mut self.inputs, line)
    }
}

// The row in which the subject has these modes too.
fn given(mut row: Row, subject: u8, modes: Modes) -> Row
    requires { subject < rows.most_subjects }
    ensures row { result ≡ rows.given subject modes row }
{
    row.add(subject, modes);
    row
}

// An object of that level may be held at a current level by those of the modes that put something into it.
fn may_put(modes: Modes, current: Level, object: Level) -> bool
    ensures { result ≡ may_put modes current object }
{
    (modes.bits() / 4 % 2 == 0 || object == current)
        && (modes.bits() / 8 % 2 == 0 || object.dominates(current))
}

// No subject holds the object of the place any more.
fn drop_all(access: &mut Access, place: Slot)
    requires { place.n < access.old.slots }
    ensures held { access.new ≡ cleared place.n access.old }
{
    access.clear_object(place);
}

// The number of a line.
fn line_of(kind: Kind) -> Option<u8>
    ensures { result ≡ queue_calls.line_of kind }
{
    match kind {
        Kind::Line(n) => Some(n),
        Kind::Directory | Kind::Segment | Kind::Mailbox => None,
    }
}

// Places the words of a segment, which are zero, and nothing for other kinds.
fn place_for(frames: &mut Frames, core: &mut Core, slot: Slot, kind: Kind, blocks: u8)
    requires known { slot.n < frames.old.slots }
    requires blocks { HasBlocks kind blocks }
    requires room { or_zero (blocks_of kind blocks) ≤ free_in frames.old }
    requires free { IsNone (map.get frames.old.extents slot.n) }
    requires apart { IsApart frames.old }
    ensures segments { segments_of frames.new core.new.words ≡ with_some (segments_of frames.old core.old.words) slot.n (zeros_of (blocks_of kind blocks)) }
    ensures sizes { sizes_of frames.new ≡ with_some (sizes_of frames.old) slot.n (blocks_of kind blocks) }
    ensures room { KeepsRoom frames.old frames.new }
    ensures below { take (words_of_block * frames.old.first) core.new.words ≡ take (words_of_block * frames.old.first) core.old.words }
    ensures apart { IsApart frames.new }
{
    if let Kind::Segment = kind {
        frames.place(core, slot, blocks);
    }
}
