ghost use Rattle.std.specs.Prelude.{◌≡◌, ◌≤◌, ◌<◌, ◌++◌, IfOk, IsTrue, OnOk, OnErr, length, vec_len};
ghost use Rattle.std.specs.Io.KnownBytes.{Consumes, IsAtEnd};
ghost use Rattle.bk_base.specs.Outside.{Rose};
ghost use Rattle.bk_base.specs.Written.{Took, Broke};

use crate::buf::Buf;
use crate::failed::Failed;
use crate::sink::Sink;
use crate::source::Source;
use std::alloc::{AllocError, Global};

/// Why not all was read.
#[derive(Clone, Copy, PartialEq, Eq, Debug)]
pub enum ReadStop {
    /// The source failed.
    Fault,
    /// The runtime had no more memory.
    NoMemory,
}

impl From<AllocError> for ReadStop {
    ghost use Rattle.bk_base.specs.declared.all.ReadStop.TheVariants.{NoMemory};

    ghost from_gives = { λ _ e. e ≡ NoMemory };

    fn from(_: AllocError) -> ReadStop {
        ReadStop::NoMemory
    }
}

impl From<Failed> for ReadStop {
    ghost use Rattle.bk_base.specs.declared.all.ReadStop.TheVariants.{Fault};

    ghost from_gives = { λ _ e. e ≡ Fault };

    fn from(_: Failed) -> ReadStop {
        ReadStop::Fault
    }
}

/// Reads the bytes up to the end, or the first `max`. At a refusal some may have been read; how many is
/// left open.
pub fn read_all<I: Source>(alloc: Global, src: &mut I, max: u32) -> Result<Vec<u8>, ReadStop>
    ensures bytes { IfOk result (λ v. Consumes (I.state src.old).left (I.state src.new).left v.items) }
    ensures given { IfOk result (λ v. (I.state src.new).given ≡ (I.state src.old).given ++ v.items) }
    ensures most { IfOk result (λ v. vec_len v ≤ max) }
    ensures end { IfOk result (λ v. vec_len v < max → IsAtEnd (I.state src.new).left) }
    ensures ended { IfOk result (λ v. vec_len v < max → IsTrue (I.state src.new).ended) }

    // The answer is Fault exactly where a read failed: elsewhere the count of faults is as before.
    ensures fault { result ≡ Err ReadStop.Fault → Rose (I.state src.old).faults (I.state src.new).faults }
    ensures told { (result ≡ Err ReadStop.Fault → ⊥) → (I.state src.new).faults ≡ (I.state src.old).faults }
    ensures later { (I.state src.old).faults ≤ (I.state src.new).faults }
{
    let mut all: Vec<u8> = Vec::new(alloc);
    let mut buf = Buf::new();
    let mut room = max;
    while room > 0 {
        let n = src.read(room, &mut buf)?;
        if n == 0 {
            break;
        }
        all.extend_from_slice(buf.bytes())?;
        room -= n;
    }
    Ok(all)
}

/// Writes all of the bytes, piece by piece. It fails exactly where a write failed, and then the count of faults rose and a
/// front of the bytes has gone out. No bytes make no call.
pub fn write_all<O: Sink>(sink: &mut O, bytes: &[u8]) -> Result<(), Failed>
    ensures ok { OnOk result (Took (O.taken sink.old) (O.taken sink.new) (O.faults sink.old) (O.faults sink.new) bytes.now) }
    ensures failed { OnErr result (Broke (O.taken sink.old) (O.taken sink.new) (O.faults sink.old) (O.faults sink.new) bytes.now) }
    ensures none { length bytes.now ≡ 0 → (sink.new ≡ sink.old) × (result ≡ Ok tt) }
{
    let mut at = 0;
    while at < bytes.len() {
        let (_, rest) = bytes.split_at(at);
        let n = sink.write(rest)?;
        at += n as usize;
    }
    Ok(())
}
