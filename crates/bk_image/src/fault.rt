// Why bytes are no image.

ghost use Rattle.std.specs.Prelude.{◌≡◌};
ghost use Rattle.bk_image.specs.Texts.{field_text};

use bk_base::Stop;

/// What is wrong with a part of an image, by the field that is at fault.
#[derive(Clone, Copy, PartialEq, Eq, Debug)]
pub enum ImageField {
    /// The part ends past byte 524,288.
    Long,
    /// The part isn't whole.
    End,
    /// The first four bytes aren't `BLPK`.
    Magic,
    /// The version isn't 1.
    Version,
    /// The turns of a slot aren't 1 to 4,096.
    Turns,
    /// The number of levels, subjects, lines, places of the schedule, objects or windows is out of its range.
    Counts,
    /// A level is spelt wrongly, stands twice or isn't listed; or it doesn't dominate the level that it has to.
    Level,
    /// A place of the schedule names no subject.
    Schedule,
    /// A mode of the processor is neither supervisor nor user.
    Mode,
    /// A fault entry is odd.
    Entry,
    /// A window's number is over 31 or doesn't stand above the last one's, or it shows no path.
    Window,
    /// The words are no path, or the path doesn't stand above the last one.
    Path,
    /// No directory stands at an object's parent; or the current level doesn't dominate that of a held object's parent.
    Parent,
    /// There is no such kind, root is no directory, or a held mode isn't one of the kind's.
    Kind,
    /// The blocks aren't those of the kind, or the number of a line is none or is used already.
    Blocks,
    /// A byte that has to be 0 isn't.
    Zero,
    /// The quota isn't one for the object, or more of it is used than there is.
    Quota,
    /// A row has a mode outside the kind's or for a subject that isn't there; or a held mode isn't in the row.
    Row,
    /// There are more words than the object has room for, or the last one is 0.
    Contents,
    /// There are fewer line objects than lines.
    Lines,
    /// A hold is of no subject.
    Subject,
    /// A hold has no mode, or more than the four.
    Modes,
    /// No object is held.
    Exists,
    /// By the simple security condition the object can't be held so.
    Ss,
    /// By the *-property the object can't be held so.
    Star,
}

impl ImageField {
    /// The word for it.
    pub fn text(self) -> &'static str
        ensures { result.now ≡ field_text self }
    {
        match self {
            ImageField::Long => "long",
            ImageField::End => "end",
            ImageField::Magic => "magic",
            ImageField::Version => "version",
            ImageField::Turns => "turns",
            ImageField::Counts => "counts",
            ImageField::Level => "level",
            ImageField::Schedule => "schedule",
            ImageField::Mode => "mode",
            ImageField::Entry => "entry",
            ImageField::Window => "window",
            ImageField::Path => "path",
            ImageField::Parent => "parent",
            ImageField::Kind => "kind",
            ImageField::Blocks => "blocks",
            ImageField::Zero => "zero",
            ImageField::Quota => "quota",
            ImageField::Row => "row",
            ImageField::Contents => "contents",
            ImageField::Lines => "lines",
            ImageField::Subject => "subject",
            ImageField::Modes => "modes",
            ImageField::Exists => "exists",
            ImageField::Ss => "ss",
            ImageField::Star => "star",
        }
    }
}

/// The first fault of an image: the place of the byte that it is told of, counted from 0, and the field.
#[derive(Clone, Copy, PartialEq, Eq, Debug)]
pub struct ImageFault {
    pub at: u32,
    pub field: ImageField,
}

/// Why no image was read or written: a fault of its bytes, or want of memory.
pub type ImageStop = Stop<ImageFault>;

impl From<ImageFault> for ImageStop {
    ghost use Rattle.bk_base.specs.declared.stop.Stop.TheVariants.{Bad};

    ghost from_gives = { λ fault stop. stop ≡ Bad fault };

    fn from(fault: ImageFault) -> ImageStop {
        Stop::Bad(fault)
    }
}
