// The calls that are for mailboxes and lines.

ghost use Rattle.std.specs.Prelude.{◌≡◌, ◌<◌, ℕ, List, option_map};
ghost use Rattle.bk_object.specs.Rows.{most_subjects};
ghost use Rattle.bk_state.specs.QueueCalls.{line_of};
ghost use Rattle.bk_calls.specs.Made.{made_by, IsMade};
ghost use Rattle.bk_calls.specs.Shown.{SameExtents};

use crate::answering::{agree, refuse};
use crate::caller::Caller;
use crate::reach::{Asked, Needs, Sort, reach};
use crate::reply::{LineByte, Reply};
use bk_object::Kind;
use bk_process::Process;
use bk_state::{Call, CallCause, Service};
use bk_store::Store;

// The message in R0 and R3 to R5 goes to the mailbox at the path, of which the caller holds w or a.
pub(crate) fn send(store: &mut Store, process: &mut Process, caller: &Caller) -> Reply
    requires { caller.now.subject < most_subjects }
    ensures made { (words : List ℕ) → IsMade store.old store.new words words process.new result (made_by caller.now store.old words process.old (Call.Other Service.Send)) }
    ensures extents { SameExtents store.old store.new }
{
    let asked = Asked {
        is_wrong: false,
        sort: Sort::Mailbox,
        needs: Needs::WriteOrAppend,
    };
    match reach(store, process, caller, asked) {
        Err(cause) => refuse(process, cause),
        Ok(reached) => {
            let general = process.registers.general;
            let message = [general[0], general[3], general[4], general[5]];
            let _ = store.put_message(reached.path, message);
            agree(process, &[0, 0])
        }
    }
}

// The oldest message of the mailbox at the path, of which the caller holds w, and how many were lost.
pub(crate) fn receive(store: &mut Store, process: &mut Process, caller: &Caller) -> Reply
    requires { caller.now.subject < most_subjects }
    ensures made { (words : List ℕ) → IsMade store.old store.new words words process.new result (made_by caller.now store.old words process.old (Call.Other Service.Receive)) }
    ensures extents { SameExtents store.old store.new }
{
    let asked = Asked {
        is_wrong: false,
        sort: Sort::Mailbox,
        needs: Needs::Write,
    };
    match reach(store, process, caller, asked) {
        Err(cause) => refuse(process, cause),
        Ok(reached) => {
            store.law_contents();
            match store.take_message(reached.path) {
                Some(message) => {
                    let words = message.words;
                    agree(
                        process,
                        &[0, message.lost, words[0], words[1], words[2], words[3]],
                    )
                }
                None => refuse(process, CallCause::Empty),
            }
        }
    }
}

// The low byte of R3 goes out on the line at the path, of which the caller holds w or a.
pub(crate) fn line_out(store: &Store, process: &mut Process, caller: &Caller) -> Reply
    requires { caller.now.subject < most_subjects }
    ensures { (words : List ℕ) → IsMade store.now store.now words words process.new result (made_by caller.now store.now words process.old (Call.Other Service.LineOut)) }
{
    let asked = Asked {
        is_wrong: false,
        sort: Sort::Line,
        needs: Needs::WriteOrAppend,
    };
    match reach(store, process, caller, asked) {
        Err(cause) => refuse(process, cause),
        Ok(reached) => {
            let byte = (process.registers.general[3] % 256) as u8;
            let reply = agree(process, &[0, 0]);
            Reply {
                sent: sent_on(reached.facts.kind, byte),
                ..reply
            }
        }
    }
}

// The byte on the line of an object of the kind.
fn sent_on(kind: Kind, byte: u8) -> Option<LineByte>
    ensures { result ≡ option_map (λ line. record { line = line; byte = byte }) (line_of kind) }
{
    match kind {
        Kind::Line(line) => Some(LineByte { line, byte }),
        Kind::Directory | Kind::Segment | Kind::Mailbox => None,
    }
}

// The oldest typed byte of the line at the path, of which the caller holds w.
pub(crate) fn line_in(store: &mut Store, process: &mut Process, caller: &Caller) -> Reply
    requires { caller.now.subject < most_subjects }
    ensures made { (words : List ℕ) → IsMade store.old store.new words words process.new result (made_by caller.now store.old words process.old (Call.Other Service.LineIn)) }
    ensures extents { SameExtents store.old store.new }
{
    let asked = Asked {
        is_wrong: false,
        sort: Sort::Line,
        needs: Needs::Write,
    };
    match reach(store, process, caller, asked) {
        Err(cause) => refuse(process, cause),
        Ok(reached) => {
            store.law_contents();
            match store.take_byte(reached.path) {
                Some(byte) => agree(process, &[0, 0, u16::from(byte)]),
                None => refuse(process, CallCause::Empty),
            }
        }
    }
}
