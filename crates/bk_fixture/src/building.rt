// The image of a system.

use crate::parts::{Holders, Object, Part, Subject, System};
use bitflags::Flags;
use bk_base::{Bytes, Words};
use bk_level::{Level, LevelTable};
use bk_object::{Facts, Kind, MOST_SUBJECTS, Modes, Row};
use bk_path::Path;
use bk_space::Mode;
use bk_state::{Hold, Holds, Image, ObjectRec, Objects, SubjectRec, Subjects, WindowRec, Windows};
use std::alloc::Global;

impl<'a> System<'a> {
    /// The image of the system: its lines are counted, and its holds stand in the order of subjects and paths.
    ///
    /// None: memory is wanting, a class stands twice or there is a 65th, or an object's entry would be over 15.
    pub fn image(&self, alloc: Global) -> Option<Image> {
        Some(Image {
            turns: self.turns,
            levels: levels_of(self.classes)?,
            lines: lines_of(self.objects),
            schedule: Bytes::from_vec(self.schedule.to_vec(alloc).ok()?),
            subjects: Subjects::from_vec(subjects_of(alloc, self.subjects)?),
            objects: Objects::from_vec(objects_of(alloc, self)?),
            holds: Holds::from_vec(holds_of(alloc, self)?),
        })
    }
}

fn levels_of(classes: &[u8]) -> Option<LevelTable> {
    let mut table = LevelTable::new();
    for class in classes {
        table
            .push(Level {
                class: *class,
                cats: [0, 0, 0],
            })
            .ok()?;
    }
    Some(table)
}

fn lines_of(objects: &[Object]) -> u8 {
    let mut lines = 0u8;
    for object in objects {
        if let Kind::Line(_) = object.kind {
            lines = lines.saturating_add(1);
        }
    }
    lines
}

fn subjects_of(alloc: Global, subjects: &[Subject]) -> Option<Vec<SubjectRec>> {
    let mut records = Vec::new(alloc);
    for subject in subjects {
        records
            .push(SubjectRec {
                f_s: subject.greatest,
                f_c: subject.current,
                mode: subject.mode,
                previous: Mode::User,
                regs: subject.general,
                user_sp: subject.user,
                super_sp: subject.supervisor,
                pc: subject.pc,
                entries: subject.entries,
                windows: Windows::from_vec(windows_of(alloc, subject.windows)?),
            })
            .ok()?;
    }
    Some(records)
}

fn windows_of(alloc: Global, windows: &[(u8, u8)]) -> Option<Vec<WindowRec>> {
    let mut records = Vec::new(alloc);
    for (index, entry) in windows {
        records
            .push(WindowRec {
                index: *index,
                path: Path::root().child(*entry)?,
            })
            .ok()?;
    }
    Some(records)
}

fn objects_of(alloc: Global, system: &System) -> Option<Vec<ObjectRec>> {
    let mut records = vec![in alloc; root_of(alloc, system)].ok()?;
    let mut entry = 0u8;
    for object in system.objects {
        records.push(record_of(alloc, entry, object)?).ok()?;
        entry = entry.saturating_add(1);
    }
    Some(records)
}

fn root_of(alloc: Global, system: &System) -> ObjectRec {
    let mut row = Row::new();
    grant(&mut row, system.root);
    ObjectRec {
        path: Path::root(),
        facts: Facts {
            kind: Kind::Directory,
            blocks: 0,
            level: 0,
            quota: system.quota,
            row,
        },
        words: Words::from_vec(Vec::new(alloc)),
    }
}

fn record_of(alloc: Global, entry: u8, object: &Object) -> Option<ObjectRec> {
    let mut row = Row::new();
    grant(&mut row, object.held);
    grant(&mut row, object.granted);
    Some(ObjectRec {
        path: Path::root().child(entry)?,
        facts: Facts {
            kind: object.kind,
            blocks: object.blocks,
            level: object.level,
            quota: object.quota,
            row,
        },
        words: Words::from_vec(words_of(alloc, object.words)?),
    })
}

fn grant(row: &mut Row, holders: Holders) {
    for (subject, modes) in holders {
        if *subject < MOST_SUBJECTS {
            row.add(*subject, Modes::from_bits_retain(*modes));
        }
    }
}

// The words of a segment, with zeros between the parts.
fn words_of(alloc: Global, parts: &[Part]) -> Option<Vec<u16>> {
    let mut words = Vec::new(alloc);
    for (address, part) in parts {
        words.resize(usize::from(*address) / 2, 0).ok()?;
        words.extend_from_slice(part).ok()?;
    }
    Some(words)
}

fn holds_of(alloc: Global, system: &System) -> Option<Vec<Hold>> {
    let mut holds = Vec::new(alloc);
    let mut subject = 0u8;
    for _ in system.subjects {
        add_holds(&mut holds, subject, system)?;
        subject = subject.saturating_add(1);
    }
    Some(holds)
}

fn add_holds(holds: &mut Vec<Hold>, subject: u8, system: &System) -> Option<()> {
    add_hold(holds, subject, Path::root(), system.root)?;
    let mut entry = 0u8;
    for object in system.objects {
        add_hold(holds, subject, Path::root().child(entry)?, object.held)?;
        entry = entry.saturating_add(1);
    }
    Some(())
}

fn add_hold(holds: &mut Vec<Hold>, subject: u8, path: Path, held: Holders) -> Option<()> {
    for (holder, modes) in held {
        if *holder == subject {
            let modes = Modes::from_bits_retain(*modes);
            holds
                .push(Hold {
                    subject,
                    modes,
                    path,
                })
                .ok()?;
        }
    }
    Some(())
}
