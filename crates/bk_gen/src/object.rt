// The objects: root, the program, the lines, and below /5 sixteen directories of sixteen segments each.

ghost use Rattle.std.specs.Prelude.{◌≡◌, ◌<◌, ◌≤◌, ◌++◌, ◌∷◌, [], map, flat_map, length, IfOk, OnOk};
ghost use Rattle.bk_gen.specs.Objects as model;
ghost use Rattle.bk_gen.specs.Program.{echo};
ghost use Rattle.bk_gen.specs.Subjects.{numbers_below, levels_made};

use crate::row::{to_all, to_line};
use crate::subject::{LEVELS, child, line_path, program_path};
use bitflags::Flags;
use bk_base::Words;
use bk_object::{Facts, Kind, LARGEST_QUOTA, Modes, Row};
use bk_path::Path;
use bk_state::ObjectRec;
use std::alloc::{AllocError, Global};

/// The program's words: a byte is taken from the caller's line and sent back, and with none the rest of the slot is let go.
const ECHO: [u16; 14] = [
    0o010501, 0o012702, 0o000000, 0o104020, 0o005700, 0o001402, 0o104024, 0o000770, 0o010203,
    0o010501, 0o012702, 0o000000, 0o104017, 0o000762,
];

/// How many directories are below `/5`, and how many segments below each of them.
const ENTRIES: u8 = 16;

fn root(alloc: Global) -> ObjectRec
    ensures { result ≡ model.root }
{
    ObjectRec {
        path: Path::root(),
        facts: Facts {
            kind: Kind::Directory,
            blocks: 0,
            level: 0,
            quota: LARGEST_QUOTA,
            row: to_all(Modes::R),
        },
        words: Words::from_vec(Vec::new(alloc)),
    }
}

fn program(alloc: Global) -> Result<ObjectRec, AllocError>
    ensures { IfOk result (λ program. program ≡ model.program) }
{
    Ok(ObjectRec {
        path: program_path(),
        facts: Facts {
            kind: Kind::Segment,
            blocks: 1,
            level: 0,
            quota: 0,
            row: to_all(Modes::from_bits_retain(3)),
        },
        words: Words::from_vec(ECHO.to_vec(alloc)?),
    })
}

fn line(alloc: Global, number: u8) -> ObjectRec
    requires { number < levels_made }
    ensures line { result ≡ model.line_object number }
{
    ObjectRec {
        path: line_path(number),
        facts: Facts {
            kind: Kind::Line(number),
            blocks: 0,
            level: number,
            quota: 0,
            row: to_line(number),
        },
        words: Words::from_vec(Vec::new(alloc)),
    }
}

#[tactic(auto, unfolding(crate::specs::Objects::granting))]
fn directory(alloc: Global, path: Path) -> ObjectRec
    ensures { result ≡ model.directory path }
{
    ObjectRec {
        path,
        facts: Facts {
            kind: Kind::Directory,
            blocks: 0,
            level: 0,
            quota: 0,
            row: Row::new(),
        },
        words: Words::from_vec(Vec::new(alloc)),
    }
}

#[tactic(auto, unfolding(crate::specs::Objects::granting))]
fn segment(alloc: Global, a: u8, b: u8, above: Path) -> Result<ObjectRec, AllocError>
    requires a { a < 16 }
    requires b { b < 16 }
    requires above { above ≡ a ∷ 5 ∷ [] }
    ensures segment { IfOk result (λ segment. segment ≡ model.segment a b) }
{
    let word = 1 + 16 * u16::from(a) + u16::from(b);
    Ok(ObjectRec {
        path: child(above, b),
        facts: Facts {
            kind: Kind::Segment,
            blocks: 8,
            level: 0,
            quota: 0,
            row: Row::new(),
        },
        words: Words::from_vec(vec![in alloc; word]?),
    })
}

// The lines follow.
fn add_lines(alloc: Global, objects: &mut Vec<ObjectRec>, count: u8) -> Result<(), AllocError>
    requires { count ≤ levels_made }
    ensures { OnOk result (objects.new.items ≡ objects.old.items ++ map model.line_object (numbers_below count)) }
{
    for number in 0..count {
        objects.push(line(alloc, number))?;
    }
    Ok(())
}

// The first segments below the directory follow.
fn add_segments(
    alloc: Global,
    objects: &mut Vec<ObjectRec>,
    a: u8,
    above: Path,
    count: u8,
) -> Result<(), AllocError>
    requires a { a < 16 }
    requires count { count ≤ 16 }
    requires above { above ≡ a ∷ 5 ∷ [] }
    ensures { OnOk result (objects.new.items ≡ objects.old.items ++ map (model.segment a) (numbers_below count)) }
{
    for b in 0..count {
        objects.push(segment(alloc, a, b, above)?)?;
    }
    Ok(())
}

// A directory and its segments follow.
#[tactic(auto, using(crate::proofs::Groups::group_behind))]
fn add_group(
    alloc: Global,
    objects: &mut Vec<ObjectRec>,
    above: Path,
    a: u8,
) -> Result<(), AllocError>
    requires a { a < 16 }
    requires above { above ≡ 5 ∷ [] }
    ensures { OnOk result (objects.new.items ≡ objects.old.items ++ model.group a) }
{
    let path = child(above, a);
    objects.push(directory(alloc, path))?;
    add_segments(alloc, objects, a, path, ENTRIES)
}

// The first directories below /5, with their segments, follow.
fn add_groups(
    alloc: Global,
    objects: &mut Vec<ObjectRec>,
    above: Path,
    count: u8,
) -> Result<(), AllocError>
    requires count { count ≤ 16 }
    requires above { above ≡ 5 ∷ [] }
    ensures { OnOk result (objects.new.items ≡ objects.old.items ++ flat_map model.group (numbers_below count)) }
{
    for a in 0..count {
        add_group(alloc, objects, above, a)?;
    }
    Ok(())
}

/// All the objects, in the order of their paths.
#[tactic(auto, unfolding(crate::specs::Objects::generated_objects))]
pub(crate) fn objects(alloc: Global) -> Result<Vec<ObjectRec>, AllocError>
    ensures { IfOk result (λ objects. objects.items ≡ model.generated_objects) }
{
    let mut objects = Vec::new(alloc);
    objects.push(root(alloc))?;
    objects.push(program(alloc)?)?;
    add_lines(alloc, &mut objects, LEVELS)?;
    let above = child(Path::root(), 5);
    objects.push(directory(alloc, above))?;
    add_groups(alloc, &mut objects, above, ENTRIES)?;
    Ok(objects)
}
