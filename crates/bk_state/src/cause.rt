ghost use Rattle.std.specs.Prelude.{◌≡◌};
ghost use Rattle.bk_state.specs.Causes.{answer_number, cause_number, is_no};

/// Why a kernel call is refused (own).
#[derive(Clone, Copy, PartialEq, Eq, Debug)]
pub enum CallCause {
    /// The wanted mode isn't in the caller's row.
    NotInRow,
    /// The caller's greatest level doesn't dominate the object's.
    AboveGreatest,
    /// The caller's current level doesn't stand to the object's as the mode asks.
    WrongCurrent,
    /// The caller doesn't hold the parent by write.
    NoParentWrite,
    /// The new level doesn't dominate the parent's.
    LevelFalls,
    /// An object is there already.
    Taken,
    /// The charge doesn't fit into the cell that governs the parent.
    OverQuota,
    /// The caller holds the object by none of the modes that the call needs.
    NotHeld,
    /// No message, no typed byte or no such entry is there.
    Empty,
    /// The offset is beyond the segment's length.
    TooLong,
    /// The object is root.
    IsRoot,
    /// What the caller holds by write or append may not be held so at the new level.
    StarProperty,
    /// There is no such call.
    NoCall,
    /// The words are no path.
    NoPath,
    /// The object isn't named for the caller.
    NotNamed,
    /// The object isn't of the call's kind, or a mode isn't one of the kind's.
    WrongKind,
    /// An argument is outside its range.
    BadArgument,
    /// No object is there.
    NoObject,
}

impl CallCause {
    /// The number that the caller finds in R1: 1 to 12 where the answer is no, 20 to 25 where it is `?`.
    pub fn number(self) -> u8
        ensures { result ≡ cause_number self }
    {
        match self {
            CallCause::NotInRow => 1,
            CallCause::AboveGreatest => 2,
            CallCause::WrongCurrent => 3,
            CallCause::NoParentWrite => 4,
            CallCause::LevelFalls => 5,
            CallCause::Taken => 6,
            CallCause::OverQuota => 7,
            CallCause::NotHeld => 8,
            CallCause::Empty => 9,
            CallCause::TooLong => 10,
            CallCause::IsRoot => 11,
            CallCause::StarProperty => 12,
            CallCause::NoCall => 20,
            CallCause::NoPath => 21,
            CallCause::NotNamed => 22,
            CallCause::WrongKind => 23,
            CallCause::BadArgument => 24,
            CallCause::NoObject => 25,
        }
    }

    /// Whether the answer is no, and not `?`.
    pub fn is_no(self) -> bool
        ensures { result ≡ is_no self }
    {
        self.number() < 20
    }

    /// The number of the answer, which the caller finds in R0: 1 for no, 2 for `?`.
    pub fn answer(self) -> u8
        ensures { result ≡ answer_number self }
    {
        if self.is_no() { 1 } else { 2 }
    }
}
