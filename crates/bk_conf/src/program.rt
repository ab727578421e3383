// The programs of a configuration.

ghost use Rattle.std.specs.Prelude.{◌≡◌, ◌+◌, ◌%◌, ◌≤◌, ◌++◌, ◌∷◌, [], ℕ, List, IfOk, IfSome, IfNone, None, length, take};
ghost use Rattle.bk_base.specs.Faults.{Gives};
ghost use Rattle.bk_conf.specs.Lines.{lines_of, program_lines, text_of};
ghost use Rattle.std.specs.BTreeMap.{insert_entry};
ghost use Rattle.bk_conf.specs.Said.{name_cmp};
ghost use Rattle.bk_conf.specs.Steps as model;
ghost use Rattle.bk_asm.specs.Assembled.{assembled};
ghost use Rattle.bk_base.specs.declared.stop.Stop.TheVariants.{Bad};
ghost use Rattle.bk_conf.specs.Fault.{fault_at};
ghost use Rattle.bk_conf.specs.Views.{HasBody, said_of};

use crate::adding::has_words;
use crate::fault::{BuildFault, BuildKind, BuildStop};
use crate::said::{Named, Said};
use crate::text::{Left, ends_program, first_line};
use bk_asm::{AsmFault, AsmStop, Program, assemble};
use bk_base::{Bytes, Words};
use std::alloc::{AllocError, Global};

/// The text of a program, how many lines it has, and what is left behind its end.
#[derive(Clone, Copy)]
pub struct Body<'a> {
    pub text: &'a [u8],
    pub lines: u32,
    pub left: Left<'a>,
}

/// The lines up to the one that ends a program.
#[tactic(auto, using(crate::proofs::Bodies::passed_start, crate::proofs::Bodies::passed_more, crate::proofs::Bodies::passed_end, crate::proofs::Bodies::passed_none))]
pub fn body_of<'a>(text: &'a [u8]) -> Option<Body<'a>>
    ensures found { IfSome result (HasBody text.now) }
    ensures none { IfNone result (program_lines (lines_of text.now) ≡ None) }
{
    let mut lines = 0u32;
    let mut rest = text;
    'lines: loop {
        let (line, after) = first_line(rest);
        if ends_program(line) {
            return Some(Body {
                text: text.split_at(text.len() - rest.len()).0,
                lines,
                left: after,
            });
        }
        match after {
            None => return None,
            Some(after) => {
                lines = lines.saturating_add(1);
                rest = after;
            }
        }
    }
}

// How many words are left without the zeros at the end.
#[tactic(auto, using(crate::proofs::Zeros::take_zero, crate::proofs::Zeros::take_word, crate::proofs::Zeros::take_none))]
fn used(words: &[u16]) -> usize
    ensures within { result ≤ length words.now }
    ensures kept { take result words.now ≡ model.without_zeros words.now }
{
    let mut used = words.len();
    'zeros: while used > 0 {
        if words[used - 1] != 0 {
            return used;
        }
        used -= 1;
    }
    0
}

// The words without the zeros at their end.
fn without_zeros(alloc: Global, words: &[u16]) -> Result<Words, AllocError>
    ensures { IfOk result (λ kept. kept ≡ model.without_zeros words.now) }
{
    Ok(Words::from_vec(words.split_at(used(words)).0.to_vec(alloc)?))
}

fn bad(line: u32, kind: BuildKind) -> BuildStop
    ensures { result ≡ Bad (fault_at line kind) }
{
    BuildStop::Bad(BuildFault { line, kind })
}

// The program of a text, or its fault as one of the configuration.
fn program_of(alloc: Global, at: u32, text: &[u8], origin: u16) -> Result<Program, BuildStop>
    requires { origin % 2 ≡ 0 }
    ensures { Gives (λ x. x) result (model.in_program at (assembled text.now origin)) }
{
    match assemble(alloc, text, origin) {
        Ok(program) => Ok(program),
        Err(AsmStop::Bad(AsmFault { line, kind })) => {
            Err(bad(at.saturating_add(line), BuildKind::Program(kind)))
        }
        Err(AsmStop::NoMemory) => Err(BuildStop::NoMemory),
    }
}

impl Said {
    fn keep_words(&mut self, name: Vec<u8>, words: Words) -> Result<(), AllocError>
        ensures { IfOk result (λ _. said_of self.new ≡ record (said_of self.old) { words = insert_entry name_cmp (said_of self.old).words name.items words }) }
    {
        self.words.insert(name, words)?;
        Ok(())
    }

    fn keep_program(&mut self, name: Bytes, program: Program) -> Result<(), AllocError>
        ensures { IfOk result (λ _. said_of self.new ≡ record (said_of self.old) { programs = (said_of self.old).programs ++ record { name = name; program = program } ∷ [] }) }
    {
        self.programs.push(Named { name, program })?;
        Ok(())
    }

    // The program with its words.
    fn with_words(&mut self, alloc: Global, name: Bytes, program: Program) -> Result<(), AllocError>
        ensures { IfOk result (λ _. said_of self.new ≡ model.with_words (said_of self.old) name program) }
    {
        let words = without_zeros(alloc, program.words.as_slice())?;
        let key = name.as_slice().to_vec(alloc)?;
        self.keep_words(key, words)?;
        self.keep_program(name, program)
    }

    /// A program, by its text: its origin is even and of 16 bits, no other has its name, and its text is assembled.
    #[tactic(auto, using(crate::proofs::Programs::origin_none, crate::proofs::Programs::origin_odd, crate::proofs::Programs::name_doubled, crate::proofs::Programs::text_refused, crate::proofs::Programs::text_taken))]
    pub fn program(
        &mut self,
        alloc: Global,
        at: u32,
        name: Bytes,
        origin: Option<u16>,
        body: Body<'_>,
    ) -> Result<(), BuildStop>
        ensures { (lines : List (List ℕ)) → body.entry.text.now ≡ text_of lines →
            Gives (λ _. (said_of self.new, length lines + 1)) result (model.with_lines (said_of self.old) at name origin lines) }
    {
        let Some(origin) = origin else {
            return Err(bad(at, BuildKind::Range));
        };
        if origin % 2 != 0 {
            return Err(bad(at, BuildKind::Range));
        }
        if has_words(&self.words, name.as_slice()) {
            return Err(bad(at, BuildKind::Doubled));
        }
        match program_of(alloc, at, body.text, origin) {
            Ok(program) => match self.with_words(alloc, name, program) {
                Ok(()) => Ok(()),
                Err(_) => Err(BuildStop::NoMemory),
            },
            Err(stop) => Err(stop),
        }
    }
}
