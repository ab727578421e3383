/// Who calls: a subject, the numbers of its greatest and its current level, and how many subjects there are.
#[derive(Clone, Copy, PartialEq, Eq, Debug)]
pub struct Caller {
    pub subject: u8,
    pub f_s: u8,
    pub f_c: u8,
    pub subjects: u8,
}
