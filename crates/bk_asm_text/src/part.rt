// Where a statement and an operand end.

ghost use Rattle.std.specs.Prelude.{◌≡◌};
ghost use Rattle.bk_asm_text.specs.Parts.{is_end, is_operand_end};

use bk_expr::past_blanks;

/// Whether nothing but blanks and a comment is left.
#[tactic(auto, unfolding(crate::specs::Parts::is_end))]
pub(crate) fn is_end(text: &[u8]) -> bool
    ensures { result ≡ is_end text.now }
{
    match past_blanks(text) {
        [] => true,
        [c, ..] => *c == b';',
    }
}

/// Whether a comma follows, or nothing but blanks and a comment is left.
#[tactic(auto, unfolding(crate::specs::Parts::is_operand_end))]
pub(crate) fn is_operand_end(text: &[u8]) -> bool
    ensures { result ≡ is_operand_end text.now }
{
    match past_blanks(text) {
        [] => true,
        [c, ..] => *c == b',' || *c == b';',
    }
}
