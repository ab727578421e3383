ghost use Rattle.std.specs.Prelude.{◌≡◌};
ghost use Rattle.bk_asm_text.specs.Fault.{kind_text};

use bk_base::Stop;

/// Why assembly text is refused.
#[derive(Clone, Copy, PartialEq, Eq, Debug)]
pub enum AsmKind {
    /// A line is outside the grammar.
    Form,
    /// A name, or a local label in its range, is defined again.
    Doubled,
    /// An instruction, `.WORD` or `.BLKW` stands at an odd address.
    Odd,
    /// A name, or a local label in its range, isn't defined.
    Undefined,
    /// The program passes 8,192 bytes or address 65,536.
    Size,
    /// An expression divides by 0.
    Divide,
    /// A value is out of the range of its field.
    Range,
}

impl AsmKind {
    /// The word for it.
    pub fn text(self) -> &'static str
        ensures { result.now ≡ kind_text self }
    {
        match self {
            AsmKind::Form => "form",
            AsmKind::Doubled => "doubled",
            AsmKind::Odd => "odd",
            AsmKind::Undefined => "undefined",
            AsmKind::Size => "size",
            AsmKind::Divide => "divide",
            AsmKind::Range => "range",
        }
    }
}

/// The first fault of assembly text: its line, counted from 1, and its kind. A line past 4,294,967,295 has that number.
#[derive(Clone, Copy, PartialEq, Eq, Debug)]
pub struct AsmFault {
    pub line: u32,
    pub kind: AsmKind,
}

/// Why assembly text gave nothing: a fault of its lines, or want of memory.
pub type AsmStop = Stop<AsmFault>;
