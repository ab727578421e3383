ghost use Rattle.std.specs.Prelude.{◌≡◌, ◌+◌, ◌-◌, ◌^◌, ◌↔◌, IsTrue, ◌<◌, min, if◌then◌else◌};

/// How many lines agreed, and how many differed.
#[derive(Clone, Copy, PartialEq, Eq, Debug)]
pub struct Tally {
    pub agree: u64,
    pub differ: u64,
}

impl Tally {
    pub fn new() -> Tally
        ensures agree { result.agree ≡ 0 }
        ensures differ { result.differ ≡ 0 }
    {
        Tally {
            agree: 0,
            differ: 0,
        }
    }

    /// Counts one line. A count stays at its last value.
    pub fn count(&mut self, agrees: bool)
        ensures agree { self.new.agree ≡ (if agrees then min (self.old.agree + 1) (2 ^ 64 - 1) else self.old.agree) }
        ensures differ { self.new.differ ≡ (if agrees then self.old.differ else min (self.old.differ + 1) (2 ^ 64 - 1)) }
    {
        if agrees {
            self.agree = self.agree.saturating_add(1);
        } else {
            self.differ = self.differ.saturating_add(1);
        }
    }

    /// Whether no line differed.
    pub fn is_clean(&self) -> bool
        ensures { IsTrue result ↔ (self.now.differ ≡ 0) }
    {
        self.differ == 0
    }
}
