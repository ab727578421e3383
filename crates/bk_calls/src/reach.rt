// The checks that the services have in common: the path, the argument, the object there, its kind, and how it is held.

ghost use Rattle.std.specs.Prelude.{◌≡◌, ◌<◌, IfOk, IsFalse};
ghost use Rattle.std.specs.List.{list_any};
ghost use Rattle.bk_object.specs.Rows.{most_subjects};
ghost use Rattle.bk_state.specs.declared.call.Service.{Service as ServiceValue};
ghost use Rattle.bk_store.specs.Stored.{holds};
ghost use Rattle.bk_calls.specs.Reached.{is_of, modes_in, Reaches, Suits};

use crate::asking::{can_show, is_named, path_of, reads_or_writes, writes, writes_or_appends};
use crate::caller::Caller;
use bk_object::{Facts, Kind};
use bk_path::Path;
use bk_process::Process;
use bk_state::CallCause;
use bk_store::Store;

// What kind of object a service is for.
#[derive(Clone, Copy, Debug)]
pub(crate) enum Sort {
    Directory,
    Segment,
    Mailbox,
    Line,
}

impl Sort {
    // Whether the kind is of the sort.
    fn has(self, kind: Kind) -> bool
        ensures { result ≡ is_of self kind }
    {
        match self {
            Sort::Directory => kind == Kind::Directory,
            Sort::Segment => kind == Kind::Segment,
            Sort::Mailbox => kind == Kind::Mailbox,
            Sort::Line => matches!(kind, Kind::Line(_)),
        }
    }
}

// The modes of which the caller has to hold one.
#[derive(Clone, Copy, Debug)]
pub(crate) enum Needs {
    Write,
    ReadOrWrite,
    WriteOrAppend,
    ReadExecuteOrWrite,
}

impl Needs {
    // Whether the subject holds the object by one of them.
    fn are_met(self, store: &Store, subject: u8, path: Path) -> bool
        requires { subject < most_subjects }
        ensures { result ≡ list_any (holds store.now subject path) (modes_in self) }
    {
        match self {
            Needs::Write => writes(store, subject, path),
            Needs::ReadOrWrite => reads_or_writes(store, subject, path),
            Needs::WriteOrAppend => writes_or_appends(store, subject, path),
            Needs::ReadExecuteOrWrite => can_show(store, subject, path),
        }
    }
}

// What a service asks for: whether its arguments are outside their ranges, the sort of object that it is for, and how the
// caller has to hold it.
#[derive(Clone, Copy, Debug)]
pub(crate) struct Asked {
    pub is_wrong: bool,
    pub sort: Sort,
    pub needs: Needs,
}

// The object that a service is asked for.
#[derive(Clone, Copy, Debug)]
pub(crate) struct Reached {
    pub path: Path,
    pub facts: Facts,
}

// The object at the path in R1 and R2, of the sort that is asked for, and held by one of the modes that are needed; or else
// the cause.
pub(crate) fn reach(
    store: &Store,
    process: &Process,
    caller: &Caller,
    asked: Asked,
) -> Result<Reached, CallCause>
    requires { caller.now.subject < most_subjects }
    ensures reached { (service : ServiceValue) → Suits asked service process.now.registers.general → Reaches caller.now store.now service process.now.registers.general result }
    ensures argument { IfOk result (λ reached. IsFalse asked.is_wrong) }
{
    let Some(path) = path_of(process) else {
        return Err(CallCause::NoPath);
    };
    if asked.is_wrong {
        return Err(CallCause::BadArgument);
    }
    if !is_named(store, caller.subject, path) {
        return Err(CallCause::NotNamed);
    }
    let Some(facts) = store.facts(path) else {
        return Err(CallCause::NoObject);
    };
    if !asked.sort.has(facts.kind) {
        return Err(CallCause::WrongKind);
    }
    if !asked.needs.are_met(store, caller.subject, path) {
        return Err(CallCause::NotHeld);
    }
    Ok(Reached { path, facts })
}
