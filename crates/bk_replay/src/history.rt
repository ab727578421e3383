// All bytes that have gone out. It takes no memory, and only clauses read it.
ghost use Rattle.std.specs.Prelude.{◌≡◌, ◌++◌, [], List, ℕ};
ghost use Rattle.std.specs.Borrow.{ftrue};

use crate::waiting::Waiting;
use std::marker::Model;

#[derive(Drop)]
pub(crate) struct History {
    ghost given: { List ℕ },
}

impl Model for History {
    ghost also_owns = { λ _. ftrue };
}

impl History {
    // Nothing yet.
    pub(crate) fn new() -> History
        ensures { result.given ≡ [] }
    {
        History {}
    }

    // With all bytes that were put since.
    pub(crate) fn then(&self, _waiting: &Waiting) -> History
        ensures { result.given ≡ self.now.given ++ _waiting.now.put }
    {
        History {}
    }
}
