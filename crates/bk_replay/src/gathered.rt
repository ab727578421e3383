// A sink before which bytes wait, so that they go out in pieces.

ghost use Rattle.std.specs.Prelude.{◌≡◌, ◌<◌, ◌++◌, [], ◌∷◌, ℕ, List, Option, None, Some, length, OnOk};
ghost use Rattle.bk_base.specs.Outside.{HasCause};
ghost use Rattle.bk_replay.specs.Gathered.{InStep, InStep-prop, waiting_of};

use crate::history::History;
use crate::waiting::Waiting;
use bk_base::{Failed, Sink};
use std::marker::{Brand, PhantomData};

/// What a sink told of its bytes when it was lent. The call that lends it picks this.
pub(crate) trait Start {
    ghost told: { Option (List ℕ) };
}

impl Start for Brand {
    ghost told = { None };
}

/// A sink that is lent, and up to 4,096 bytes that wait before it: they go out when as many are there, or by `empty`.
#[derive(Drop)]
pub(crate) struct Gathered<'a, O: Sink, L: Start> {
    out: &'a mut O,
    waiting: Waiting,
    history: History,
    start: PhantomData<L>,
    ghost in_step: { InStep L.told (O.taken out.now) (history.given ++ waiting.put) (waiting_of waiting) } by { InStep-prop L.told (O.taken out.now) (history.given ++ waiting.put) (waiting_of waiting) },
}

impl<'a, O: Sink, L: Start> Gathered<'a, O, L> {
    /// Nothing waits yet.
    #[tactic(auto, using(crate::proofs::Pieces::step_begun))]
    pub(crate) fn new(out: &'a mut O) -> Gathered<'a, O, L>
        requires start { L.told ≡ O.taken out.now }
        ensures same_reference { result.out.ghost_name ≡ out.entry.ghost_name }
        ensures now { result.out.now ≡ out.old }
        ensures waiting { result.waiting ≡ record { put = []; sent = 0 } }
        ensures history { result.history.given ≡ [] }
    {
        Gathered {
            out,
            waiting: Waiting::new(),
            history: History::new(),
            start: PhantomData,
        }
    }

    /// What waits goes out. Where a write fails, what was not sent goes on waiting.
    #[tactic(auto, using(crate::proofs::Pieces::step_sent, crate::proofs::Pieces::step_kept))]
    pub(crate) fn empty(&mut self) -> Result<(), Failed>
        ensures same_reference { self.new.out.ghost_name ≡ self.old.out.ghost_name }
        ensures none { OnOk result (self.new.waiting ≡ record { put = []; sent = 0 }) }
        ensures history { self.new.history.given ++ self.new.waiting.put ≡ self.old.history.given ++ self.old.waiting.put }
        ensures cause { HasCause (O.faults self.old.out.now) (O.faults self.new.out.now) result }
    {
        while !self.waiting.bytes().is_empty() {
            let n = self.out.write(self.waiting.bytes())?;
            self.waiting.give(n as usize);
        }
        self.history = self.history.then(&self.waiting);
        self.waiting.clear();
        Ok(())
    }

    /// What waits goes out where there is room for no more.
    fn make_room(&mut self) -> Result<(), Failed>
        ensures same_reference { self.new.out.ghost_name ≡ self.old.out.ghost_name }
        ensures room { OnOk result (length self.new.waiting.put < 4096) }
        ensures history { self.new.history.given ++ self.new.waiting.put ≡ self.old.history.given ++ self.old.waiting.put }
        ensures cause { HasCause (O.faults self.old.out.now) (O.faults self.new.out.now) result }
    {
        if self.waiting.has_room() {
            return Ok(());
        }
        self.empty()
    }
}

impl<'a, O: Sink, L: Start> Sink for Gathered<'a, O, L> {
    /// The name of the loan, and behind it all bytes that came since. So whoever has only appended has kept the loan.
    ghost taken = { λ s. Some (s.out.ghost_name ∷ s.history.given ++ s.waiting.put) };

    ghost faults = { λ s. O.faults s.out.now };

    #[tactic(auto, using(crate::proofs::Pieces::step_put))]
    fn write(&mut self, piece: &[u8]) -> Result<u32, Failed> {
        self.make_room()?;
        let n = self.waiting.put(piece);
        Ok(n as u32)
    }
}
