ghost use Rattle.std.specs.Prelude.{◌≡◌, ◌≤◌, [], take, IfOk, min, length};
ghost use Rattle.bk_base.specs.Outside.{Reads};

use std::io;
use std::io::Read;
use std::marker::Model;

/// What one read gave: at most 4,096 bytes.
#[derive(Drop)]
pub struct Buf {
    bytes: [u8; 4096],
    len: usize,
}

impl Model for Buf {
    ghost use Rattle.std.specs.Prelude.{◌≤◌, List, ℕ, take};

    ghost Value = { List ℕ };

    ghost view = { λ b. take b.len b.bytes };

    ghost invariant = { λ b. b.len ≤ 4096 };
}

impl Buf {
    /// A buffer with nothing in it.
    pub fn new() -> Buf
        ensures { result ≡ [] }
    {
        Buf {
            bytes: [0; 4096],
            len: 0,
        }
    }

    /// The bytes in it.
    pub fn bytes(&self) -> &[u8]
        ensures { result.now ≡ self.now }
    {
        &self.bytes[..self.len]
    }

    /// Holds the front of a slice from now on, at most `most` bytes and 4,096, and says how many.
    pub fn copy_from(&mut self, most: u32, rest: &[u8]) -> u32
        ensures count { result ≡ min most (min 4096 (length rest.now)) }
        ensures bytes { self.new ≡ take result rest.now }
    {
        let n = (most as usize).min(4096.min(rest.len()));
        self.bytes[..n].copy_from_slice(&rest[..n]);
        self.len = n;
        n as u32
    }

    /// Holds the next bytes of a reader from now on, and says how many.
    pub(crate) fn fill<R: Read>(&mut self, max: u32, reader: &mut R) -> io::Result<u32>
        requires { 1 ≤ max }
        ensures ok { IfOk result (λ n. Reads max n (R.remaining reader.old) (R.remaining reader.new) self.new) }
    {
        let most = (max as usize).min(4096);
        let n = reader.read(&mut self.bytes[..most])?;
        self.len = n;
        Ok(n as u32)
    }
}
