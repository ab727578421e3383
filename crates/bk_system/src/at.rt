/// Which turn it is: the number of its slot, its own number in the slot, and the subject whose turn it is.
#[derive(Clone, Copy, PartialEq, Eq, Debug)]
pub struct At {
    pub slot: u32,
    pub turn: u16,
    pub subject: u8,
}
