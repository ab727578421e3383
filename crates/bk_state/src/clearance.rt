/// The numbers of a subject's greatest and current level.
#[derive(Clone, Copy, PartialEq, Eq, Debug)]
pub struct Clearance {
    pub greatest: u8,
    pub current: u8,
}
