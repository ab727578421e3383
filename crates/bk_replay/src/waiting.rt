ghost use Rattle.std.specs.Prelude.{◌≡◌, ◌≤◌, ◌++◌, ◌+◌, ◌-◌, [], drop, length, min, nat_lt, take};
ghost use Rattle.bk_replay.specs.Gathered.{waiting_of};

use std::marker::Model;

/// Bytes that were put, at most 4,096, of which the first have gone out and the others wait.
#[derive(Drop)]
pub(crate) struct Waiting {
    bytes: [u8; 4096],
    sent: usize,
    put: usize,
}

impl Model for Waiting {
    ghost use Rattle.std.specs.Prelude.{◌≤◌, take};
    ghost use Rattle.bk_replay.specs.Gathered.{Waits};

    ghost Value = { Waits };

    ghost view = { λ w. record { put = take w.put w.bytes; sent = w.sent } };

    ghost invariant = { λ w. (w.sent ≤ w.put) × (w.put ≤ 4096) };
}

impl Waiting {
    /// No bytes, and room for 4,096.
    pub(crate) fn new() -> Waiting
        ensures { result ≡ record { put = []; sent = 0 } }
    {
        Waiting {
            bytes: [0; 4096],
            sent: 0,
            put: 0,
        }
    }

    /// Whether there is room for one more.
    pub(crate) fn has_room(&self) -> bool
        ensures { result ≡ nat_lt (length self.now.put) 4096 }
    {
        self.put < 4096
    }

    /// The bytes that wait.
    pub(crate) fn bytes(&self) -> &[u8]
        ensures { result.now ≡ waiting_of self.now }
    {
        let (_, rest) = self.bytes[..self.put].split_at(self.sent);
        rest
    }

    /// Puts the front of a piece, as much as there is room for, and says how many bytes.
    pub(crate) fn put(&mut self, piece: &[u8]) -> usize
        ensures count { result ≡ min (length piece.now) (4096 - length self.old.put) }
        ensures most { result ≤ 4096 }
        ensures put { self.new.put ≡ self.old.put ++ take result piece.now }
        ensures waiting { waiting_of self.new ≡ waiting_of self.old ++ take result piece.now }
    {
        let n = piece.len().min(4096 - self.put);
        self.bytes[self.put..self.put + n].copy_from_slice(&piece[..n]);
        self.put += n;
        n
    }

    /// The first n that wait have gone out.
    pub(crate) fn give(&mut self, n: usize)
        requires { n ≤ length (waiting_of self.old) }
        ensures put { self.new.put ≡ self.old.put }
        ensures waiting { waiting_of self.new ≡ drop n (waiting_of self.old) }
    {
        self.sent += n;
    }

    /// No bytes again.
    pub(crate) fn clear(&mut self)
        ensures { self.new ≡ record { put = []; sent = 0 } }
    {
        self.sent = 0;
        self.put = 0;
    }
}
