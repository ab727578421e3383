use bk_base::{Bytes, Sequence};

/// Bytes that are typed on a line before a slot begins, in the order in which they are typed.
#[derive(Drop)]
pub struct TypedAt {
    pub slot: u32,
    pub line: u8,
    pub bytes: Bytes,
}

pub type TypedList = Sequence<TypedAt>;

/// What is typed in a run, by slot and line, and the number of its slots.
#[derive(Drop)]
pub struct Script {
    pub slots: u32,
    pub typed: TypedList,
}
