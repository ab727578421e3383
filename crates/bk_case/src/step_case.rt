use bk_cpu::Event;
use bk_space::{Regs, Rights, Width};

/// A page: what may be done with it, and how many blocks of 32 words it has.
#[derive(Clone, Copy)]
pub struct CasePage {
    pub rights: Rights,
    pub blocks: u8,
}

/// A word or a byte of a page, at a byte offset.
#[derive(Clone, Copy)]
pub struct Content {
    pub page: u8,
    pub offset: u16,
    pub width: Width,
    pub value: u16,
}

/// One instruction over a plain address space, with its answer.
#[derive(Drop)]
pub struct StepCase {
    pub before: Regs,
    pub pages: Vec<CasePage>,
    pub words: Vec<Content>,
    pub after: Regs,
    pub write: Option<Content>,
    pub references: u64,
    pub event: Event,
}
