ghost use Rattle.std.specs.Prelude.{◌≡◌};
ghost use Rattle.bk_conf.specs.Fault.{kind_text};

use arrayvec::ArrayVec;
use bk_asm::AsmKind;
use bk_base::Stop;
use bk_image::ImageField;
use bk_report::put;

/// Why a configuration is refused.
#[derive(Clone, Copy, PartialEq, Eq, Debug)]
pub enum BuildKind {
    /// It has over 1,048,576 bytes.
    Long,
    /// There is no such line, a field is spelt wrongly, or a program has no end.
    Form,
    /// A number is too large for its field, or there are too many of a kind.
    Range,
    /// What the line says is said already.
    Doubled,
    /// A program's text is refused.
    Program(AsmKind),
    /// A line names a subject, a row's object or a program that isn't there.
    Unknown,
    /// There are no turns, no schedule, no level, no subject or no object.
    Missing,
    /// The bytes of the image aren't an image.
    Image(ImageField),
}

impl BuildKind {
    /// The text for it.
    #[tactic(auto, using(crate::proofs::Texts::kind_short, crate::proofs::Texts::field_short))]
    pub fn text(self) -> ArrayVec<u8, 96>
        ensures { result.items ≡ kind_text self }
    {
        let mut text = ArrayVec::new();
        match self {
            BuildKind::Long => put(&mut text, b"long"),
            BuildKind::Form => put(&mut text, b"form"),
            BuildKind::Range => put(&mut text, b"range"),
            BuildKind::Doubled => put(&mut text, b"doubled"),
            BuildKind::Program(kind) => {
                put(&mut text, b"program ");
                put(&mut text, kind.text().as_bytes());
            }
            BuildKind::Unknown => put(&mut text, b"unknown"),
            BuildKind::Missing => put(&mut text, b"missing"),
            BuildKind::Image(field) => {
                put(&mut text, b"image ");
                put(&mut text, field.text().as_bytes());
            }
        }
        text
    }
}

/// The first fault of a configuration: its line, counted from 1, and its kind; line 0 where it is of no line. A line past
/// 4,294,967,295 has that number.
#[derive(Clone, Copy, PartialEq, Eq, Debug)]
pub struct BuildFault {
    pub line: u32,
    pub kind: BuildKind,
}

/// Why a line says nothing: the kind of its fault, or want of memory.
pub type KindStop = Stop<BuildKind>;

impl From<BuildKind> for KindStop {
    ghost use Rattle.std.specs.Prelude.{◌≡◌};
    ghost use Rattle.bk_base.specs.declared.stop.Stop.TheVariants.{Bad};

    ghost from_gives = { λ kind stop. stop ≡ Bad kind };

    fn from(kind: BuildKind) -> KindStop {
        Stop::Bad(kind)
    }
}

/// Why nothing was built: a fault of the configuration, or want of memory.
pub type BuildStop = Stop<BuildFault>;
