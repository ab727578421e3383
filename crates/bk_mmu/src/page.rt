/// A page as it is quickest to use: the physical address of its first byte, and how many of its bytes may be read and written,
/// 0 for none. All three are whole blocks of 64 bytes.
#[derive(Clone, Copy)]
pub(crate) struct Page {
    pub(crate) base: u32,
    pub(crate) readable: u16,
    pub(crate) writable: u16,
}
