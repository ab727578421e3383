// What is left of the input.

ghost use Rattle.std.specs.Prelude.{◌≤◌};
ghost use Rattle.bk_image.specs.Limits.{most_bytes};

/// The bytes that are left, and the place of the first of them in the input.
#[derive(Clone, Copy)]
pub(crate) struct Rest<'a> {
    pub(crate) at: u32,
    pub(crate) bytes: &'a [u8],
    ghost within: { at ≤ most_bytes },
}
