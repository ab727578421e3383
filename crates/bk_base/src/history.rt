// All bytes that a source has given. It takes no memory, and only clauses read it.
ghost use Rattle.std.specs.Prelude.{◌≡◌, ◌++◌, [], List, ℕ};
ghost use Rattle.std.specs.Borrow.{ftrue};

use crate::buf::Buf;
use std::marker::Model;

#[derive(Drop)]
pub(crate) struct History {
    ghost given: { List ℕ },
}

impl Model for History {
    ghost also_owns = { λ _. ftrue };
}

impl History {
    // Nothing yet.
    pub(crate) fn new() -> History
        ensures { result.given ≡ [] }
    {
        History {}
    }

    // With the bytes of one read more.
    pub(crate) fn then(&self, _buf: &Buf) -> History
        ensures { result.given ≡ self.now.given ++ _buf.now }
    {
        History {}
    }
}
