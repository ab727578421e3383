// The kinds of line.

ghost use Rattle.std.specs.Prelude.{◌≡◌, ◌<◌, ◌==◌, ◌^◌, [], ◌∷◌, IfOk, length};
ghost use Rattle.std.specs.List.{list_all};
ghost use Rattle.bk_base.specs.Faults.{Gives};
ghost use Rattle.bk_level.specs.Masks.{mask_in};
ghost use Rattle.bk_conf.specs.Fields.{is_decimal, is_octal};
ghost use Rattle.bk_conf.specs.Kinds as model;
ghost use Rattle.bk_conf.specs.Views.{texts};

use crate::fault::{BuildKind, KindStop};
use crate::field::{
    are_modes, bits_in, byte_to, is_decimal, is_mask, is_mode, is_name, is_octal, is_path,
    is_space, mode_in, modes_in, path_in, word_in, word_to,
};
use crate::line::{Line, SubjectLine};
use bk_base::Bytes;
use bk_level::Level;
use bk_object::{Facts, Kind, MOST_SUBJECTS, Row};
use std::alloc::{AllocError, Global};

fn subject_in(text: &[u8]) -> Result<u8, BuildKind>
    ensures { result ≡ model.subject_in text.now }
{
    byte_to(MOST_SUBJECTS - 1, text)
}

fn are_decimal(f: &[&[u8]]) -> bool
    ensures { result ≡ list_all is_decimal (texts f.now) }
{
    for field in f {
        if !is_decimal(field) {
            return false;
        }
    }
    true
}

fn are_octal(f: &[&[u8]]) -> bool
    ensures { result ≡ list_all is_octal (texts f.now) }
{
    for field in f {
        if !is_octal(field) {
            return false;
        }
    }
    true
}

#[tactic(auto, unfolding(crate::specs::Kinds::turns_line))]
fn turns_line(f: &[&[u8]]) -> Result<Line, BuildKind>
    ensures { result ≡ model.turns_line (texts f.now) }
{
    match f {
        [turns] if is_decimal(turns) => Ok(Line::Turns(word_to(65535, turns)?)),
        _ => Err(BuildKind::Form),
    }
}

// The words of a mask, the lowest first.
fn words_of(mask: u64) -> [u16; 3]
    requires { mask < 2 ^ 48 }
    ensures { mask_in result ≡ mask }
{
    [
        (mask % 0x1_0000) as u16,
        (mask / 0x1_0000 % 0x1_0000) as u16,
        (mask / 0x1_0000_0000) as u16,
    ]
}

#[tactic(auto, unfolding(crate::specs::Kinds::level_line))]
fn level_line(f: &[&[u8]]) -> Result<Line, BuildKind>
    ensures { result ≡ model.level_line (texts f.now) }
{
    match f {
        [class, cats] if is_decimal(class) && is_mask(cats) => Ok(Line::Level(Level {
            class: byte_to(255, class)?,
            cats: words_of(bits_in(cats)?),
        })),
        _ => Err(BuildKind::Form),
    }
}

// The subjects that the fields name, in order. It takes memory for their list.
#[tactic(auto, using(crate::proofs::Fields::subjects_next, crate::proofs::Fields::subjects_stop, crate::proofs::Fields::subjects_end))]
fn subjects_in(alloc: Global, f: &[&[u8]]) -> Result<Vec<u8>, KindStop>
    ensures { Gives (λ subjects. subjects.items) result (model.subjects_in [] (texts f.now)) }
{
    let mut subjects = Vec::new(alloc);
    for field in f {
        match subject_in(field) {
            Ok(subject) => subjects.push(subject)?,
            Err(kind) => return Err(KindStop::Bad(kind)),
        }
    }
    Ok(subjects)
}

#[tactic(auto, unfolding(crate::specs::Kinds::schedule_line))]
fn schedule_line(alloc: Global, f: &[&[u8]]) -> Result<Line, KindStop>
    ensures { Gives (λ x. x) result (model.schedule_line (texts f.now)) }
{
    if f.is_empty() || 64 < f.len() || !are_decimal(f) {
        return Err(KindStop::Bad(BuildKind::Form));
    }
    Ok(Line::Schedule(Bytes::from_vec(subjects_in(alloc, f)?)))
}

#[tactic(auto, unfolding(crate::specs::Kinds::subject_line))]
fn subject_line(f: &[&[u8]]) -> Result<Line, BuildKind>
    ensures { result ≡ model.subject_line (texts f.now) }
{
    match f {
        [
            f_s,
            f_c,
            mode,
            previous,
            pc,
            user_sp,
            super_sp,
            r0,
            r1,
            r2,
            r3,
            r4,
            r5,
        ] if is_decimal(f_s)
            && is_decimal(f_c)
            && is_mode(mode)
            && is_mode(previous)
            && are_octal(&f[4..]) => {
            Ok(Line::Subject(SubjectLine {
                f_s: byte_to(255, f_s)?,
                f_c: byte_to(255, f_c)?,
                mode: mode_in(mode),
                previous: mode_in(previous),
                pc: word_in(pc)?,
                user_sp: word_in(user_sp)?,
                super_sp: word_in(super_sp)?,
                regs: [
                    word_in(r0)?,
                    word_in(r1)?,
                    word_in(r2)?,
                    word_in(r3)?,
                    word_in(r4)?,
                    word_in(r5)?,
                ],
            }))
        }
        _ => Err(BuildKind::Form),
    }
}

#[tactic(auto, unfolding(crate::specs::Kinds::fault_line))]
fn fault_line(f: &[&[u8]]) -> Result<Line, BuildKind>
    ensures { result ≡ model.fault_line (texts f.now) }
{
    match f {
        [subject, fault, address]
            if is_decimal(subject) && is_decimal(fault) && is_octal(address) => {
            Ok(Line::Fault {
                subject: subject_in(subject)?,
                fault: byte_to(7, fault)?,
                address: word_in(address)?,
            })
        }
        _ => Err(BuildKind::Form),
    }
}

// The number of a window, of which the page is known.
fn window_of(mode: &[u8], space: &[u8], page: u8) -> u8
    requires { page < 8 }
    ensures { result ≡ model.window_of mode.now space.now page }
{
    let mode = if mode == b"user".as_slice() { 16 } else { 0 };
    let space = if space == b"d".as_slice() { 8 } else { 0 };
    mode + space + page
}

#[tactic(auto, unfolding(crate::specs::Kinds::window_line))]
fn window_line(f: &[&[u8]]) -> Result<Line, BuildKind>
    ensures { result ≡ model.window_line (texts f.now) }
{
    match f {
        [subject, mode, space, page, path]
            if is_decimal(subject)
                && is_mode(mode)
                && is_space(space)
                && is_decimal(page)
                && is_path(path) => {
            let subject = subject_in(subject)?;
            let page = byte_to(7, page)?;
            Ok(Line::Window {
                subject,
                index: window_of(mode, space, page),
                path: path_in(path)?,
            })
        }
        _ => Err(BuildKind::Form),
    }
}

// An object's facts, its row empty.
fn facts_of(kind: Kind, blocks: u8, level: u8, quota: u16) -> Facts
    ensures { result ≡ model.facts_of kind blocks level quota }
{
    Facts {
        kind,
        blocks,
        level,
        quota,
        row: Row::new(),
    }
}

#[tactic(auto, unfolding(crate::specs::Kinds::directory_line))]
fn directory_line(f: &[&[u8]]) -> Result<Line, BuildKind>
    ensures { result ≡ model.directory_line (texts f.now) }
{
    match f {
        [path, _, level, quota] if is_path(path) && is_decimal(level) && is_decimal(quota) => {
            let path = path_in(path)?;
            let level = byte_to(255, level)?;
            Ok(Line::Object {
                path,
                facts: facts_of(Kind::Directory, 0, level, word_to(65535, quota)?),
                program: None,
            })
        }
        _ => Err(BuildKind::Form),
    }
}

// A copy of a name.
fn name_of(alloc: Global, name: &[u8]) -> Result<Bytes, AllocError>
    ensures { IfOk result (λ bytes. bytes ≡ name.now) }
{
    Ok(Bytes::from_vec(name.to_vec(alloc)?))
}

// The program that the last of five fields names.
fn program_in(alloc: Global, f: &[&[u8]]) -> Result<Option<Bytes>, AllocError>
    ensures { IfOk result (λ program. program ≡ model.program_in (texts f.now)) }
{
    match f {
        [_, _, _, _, name] => Ok(Some(name_of(alloc, name)?)),
        _ => Ok(None),
    }
}

// Whether four fields are there, or five of which the last is a name.
fn may_name(f: &[&[u8]]) -> bool
    ensures { result ≡ model.may_name (texts f.now) }
{
    match f {
        [_, _, _, _] => true,
        [_, _, _, _, name] => is_name(name),
        _ => false,
    }
}

#[tactic(auto, unfolding(crate::specs::Kinds::segment_line))]
fn segment_line(alloc: Global, f: &[&[u8]]) -> Result<Line, KindStop>
    ensures { Gives (λ x. x) result (model.segment_line (texts f.now)) }
{
    if !may_name(f) || !is_path(f[0]) || !is_decimal(f[2]) || !is_decimal(f[3]) {
        return Err(KindStop::Bad(BuildKind::Form));
    }
    let path = path_in(f[0])?;
    let level = byte_to(255, f[2])?;
    let blocks = byte_to(255, f[3])?;
    Ok(Line::Object {
        path,
        facts: facts_of(Kind::Segment, blocks, level, 0),
        program: program_in(alloc, f)?,
    })
}

#[tactic(auto, unfolding(crate::specs::Kinds::mailbox_line))]
fn mailbox_line(f: &[&[u8]]) -> Result<Line, BuildKind>
    ensures { result ≡ model.mailbox_line (texts f.now) }
{
    match f {
        [path, _, level] if is_path(path) && is_decimal(level) => {
            let path = path_in(path)?;
            Ok(Line::Object {
                path,
                facts: facts_of(Kind::Mailbox, 0, byte_to(255, level)?, 0),
                program: None,
            })
        }
        _ => Err(BuildKind::Form),
    }
}

#[tactic(auto, unfolding(crate::specs::Kinds::typing_line))]
fn typing_line(f: &[&[u8]]) -> Result<Line, BuildKind>
    ensures { result ≡ model.typing_line (texts f.now) }
{
    match f {
        [path, _, level, number] if is_path(path) && is_decimal(level) && is_decimal(number) => {
            let path = path_in(path)?;
            let level = byte_to(255, level)?;
            Ok(Line::Object {
                path,
                facts: facts_of(Kind::Line(byte_to(255, number)?), 0, level, 0),
                program: None,
            })
        }
        _ => Err(BuildKind::Form),
    }
}

fn object_by_word(alloc: Global, word: &[u8], f: &[&[u8]]) -> Result<Line, KindStop>
    ensures { Gives (λ x. x) result (model.by_word model.object_kinds word.now (texts f.now)) }
{
    if word == b"directory".as_slice() {
        Ok(directory_line(f)?)
    } else if word == b"segment".as_slice() {
        segment_line(alloc, f)
    } else if word == b"mailbox".as_slice() {
        Ok(mailbox_line(f)?)
    } else if word == b"line".as_slice() {
        Ok(typing_line(f)?)
    } else {
        Err(KindStop::Bad(BuildKind::Form))
    }
}

#[tactic(auto, unfolding(crate::specs::Kinds::object_line))]
fn object_line(alloc: Global, f: &[&[u8]]) -> Result<Line, KindStop>
    ensures { Gives (λ x. x) result (model.object_line (texts f.now)) }
{
    if f.len() < 2 {
        return Err(KindStop::Bad(BuildKind::Form));
    }
    object_by_word(alloc, f[1], f)
}

#[tactic(auto, unfolding(crate::specs::Kinds::row_line))]
fn row_line(f: &[&[u8]]) -> Result<Line, BuildKind>
    ensures { result ≡ model.row_line (texts f.now) }
{
    match f {
        [path, subject, modes] if is_path(path) && is_decimal(subject) && are_modes(modes) => {
            Ok(Line::Row {
                path: path_in(path)?,
                subject: subject_in(subject)?,
                modes: modes_in(modes),
            })
        }
        _ => Err(BuildKind::Form),
    }
}

#[tactic(auto, unfolding(crate::specs::Kinds::hold_line))]
fn hold_line(f: &[&[u8]]) -> Result<Line, BuildKind>
    ensures { result ≡ model.hold_line (texts f.now) }
{
    match f {
        [subject, path, modes] if is_decimal(subject) && is_path(path) && are_modes(modes) => {
            Ok(Line::Hold {
                subject: subject_in(subject)?,
                path: path_in(path)?,
                modes: modes_in(modes),
            })
        }
        _ => Err(BuildKind::Form),
    }
}

// The number, where it is one of 16 bits.
fn if_word(number: Result<u16, BuildKind>) -> Option<u16>
    ensures { result ≡ model.if_word number }
{
    match number {
        Ok(number) => Some(number),
        Err(_) => None,
    }
}

#[tactic(auto, unfolding(crate::specs::Kinds::program_line))]
fn program_line(alloc: Global, f: &[&[u8]]) -> Result<Line, KindStop>
    ensures { Gives (λ x. x) result (model.program_line (texts f.now)) }
{
    match f {
        [name, origin] if is_name(name) && is_octal(origin) => Ok(Line::Program {
            name: name_of(alloc, name)?,
            origin: if_word(word_in(origin)),
        }),
        _ => Err(KindStop::Bad(BuildKind::Form)),
    }
}

// What a line says by its word and the fields behind it.
fn by_word(alloc: Global, word: &[u8], f: &[&[u8]]) -> Result<Line, KindStop>
    ensures { Gives (λ x. x) result (model.by_word model.kinds word.now (texts f.now)) }
{
    if word == b"turns".as_slice() {
        Ok(turns_line(f)?)
    } else if word == b"level".as_slice() {
        Ok(level_line(f)?)
    } else if word == b"schedule".as_slice() {
        schedule_line(alloc, f)
    } else if word == b"subject".as_slice() {
        Ok(subject_line(f)?)
    } else if word == b"fault".as_slice() {
        Ok(fault_line(f)?)
    } else if word == b"window".as_slice() {
        Ok(window_line(f)?)
    } else if word == b"object".as_slice() {
        object_line(alloc, f)
    } else if word == b"row".as_slice() {
        Ok(row_line(f)?)
    } else if word == b"hold".as_slice() {
        Ok(hold_line(f)?)
    } else if word == b"program".as_slice() {
        program_line(alloc, f)
    } else {
        Err(KindStop::Bad(BuildKind::Form))
    }
}

/// What a line says by its fields, or nothing where it has none. It takes memory for names and schedules.
pub fn line_of(alloc: Global, fields: &[&[u8]]) -> Result<Option<Line>, KindStop>
    ensures { Gives (λ x. x) result (model.line_of (texts fields.now)) }
{
    match fields {
        [] => Ok(None),
        [word, f @ ..] => Ok(Some(by_word(alloc, word, f)?)),
    }
}
