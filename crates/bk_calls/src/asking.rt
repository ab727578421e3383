// What the checks of a call ask of the process and of the store.

ghost use Rattle.std.specs.Prelude.{◌≡◌, ◌<◌, ◌&&◌, ◌∷◌, [], ℕ, List, IfSome, slice_index};
ghost use Rattle.std.specs.List.{list_any};
ghost use Rattle.bk_object.specs.Kinds.{is_directory};
ghost use Rattle.bk_object.specs.Modes.{has, Read, Execute, Write, Append};
ghost use Rattle.bk_object.specs.Rows.{most_subjects};
ghost use Rattle.bk_path.specs.Paths.{unpack};
ghost use Rattle.bk_quota.specs.Charges.{passes};
ghost use Rattle.bk_state.specs.Named as model;
ghost use Rattle.bk_state.specs.Request.{path_in, request_in};
ghost use Rattle.bk_store.specs.Stored.{all_modes, facts_in, holds};
ghost use Rattle.bk_calls.specs.Made.{seen_by};

use crate::caller::Caller;
use bitflags::Flags;
use bk_object::{Kind, Modes};
use bk_path::Path;
use bk_process::Process;
use bk_store::Store;

/// The path in R1 and R2: None where the two words pack no path.
pub(crate) fn path_of(process: &Process) -> Option<Path>
    ensures value { result ≡ unpack (slice_index process.now.registers.general 1) (slice_index process.now.registers.general 2) }
    ensures path { IfSome result (λ path. path_in process.now.registers.general ≡ path) }
{
    Path::unpack(process.registers.general[1], process.registers.general[2])
}

/// The modes in the low byte of R3.
pub(crate) fn modes_of(process: &Process) -> Modes
    ensures { result ≡ (request_in process.now.registers.general).modes }
{
    Modes::from_bits_retain((process.registers.general[3] % 256) as u8)
}

/// Whether the caller may name the object: it is root, or its parent is a directory that the subject holds by read or by
/// write.
pub(crate) fn is_named(store: &Store, subject: u8, path: Path) -> bool
    requires { subject < most_subjects }
    ensures { (caller : Caller) (words : List ℕ) → result ≡ model.is_named (seen_by caller store.now words) subject path }
{
    match path.parent() {
        Some(above) => is_directory(store, above) && reads_or_writes(store, subject, above),
        None => true,
    }
}

/// Whether the subject holds the object by write.
pub(crate) fn writes(store: &Store, subject: u8, path: Path) -> bool
    requires { subject < most_subjects }
    ensures { result ≡ holds store.now subject path Write }
{
    holds_one_of(store, subject, path, Modes::W)
}

/// Whether the subject holds the object by read or by write.
pub(crate) fn reads_or_writes(store: &Store, subject: u8, path: Path) -> bool
    requires { subject < most_subjects }
    ensures { result ≡ list_any (holds store.now subject path) (Read ∷ Write ∷ []) }
{
    holds_one_of(store, subject, path, Modes::from_bits_retain(5))
}

/// Whether the subject holds the object by write or by append.
pub(crate) fn writes_or_appends(store: &Store, subject: u8, path: Path) -> bool
    requires { subject < most_subjects }
    ensures { result ≡ list_any (holds store.now subject path) (Write ∷ Append ∷ []) }
{
    holds_one_of(store, subject, path, Modes::from_bits_retain(12))
}

/// Whether the subject holds the object by read, execute or write: the modes by which a window can show it.
pub(crate) fn can_show(store: &Store, subject: u8, path: Path) -> bool
    requires { subject < most_subjects }
    ensures { result ≡ list_any (holds store.now subject path) (Read ∷ Execute ∷ Write ∷ []) }
{
    holds_one_of(store, subject, path, Modes::from_bits_retain(7))
}

// Whether the subject holds the object by one of the modes.
fn holds_one_of(store: &Store, subject: u8, path: Path, modes: Modes) -> bool
    requires { subject < most_subjects }
    ensures { result ≡ list_any (λ mode. has modes mode && holds store.now subject path mode) all_modes }
{
    have_common(modes, store.held(subject, path))
}

// Whether the two sets have a mode in common.
fn have_common(a: Modes, b: Modes) -> bool
    ensures { result ≡ list_any (λ mode. has a mode && has b mode) all_modes }
{
    (a.bits() & b.bits()) % 16 != 0
}

/// Whether a directory is at the path.
pub(crate) fn is_directory(store: &Store, path: Path) -> bool
    ensures { result ≡ passes (λ facts. is_directory facts.kind) (facts_in store.now path) }
{
    match store.facts(path) {
        Some(facts) => facts.kind == Kind::Directory,
        None => false,
    }
}
