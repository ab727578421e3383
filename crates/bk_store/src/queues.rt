// The mailboxes of all slots, and the typed bytes of all lines.

ghost use Rattle.std.specs.Prelude.{◌≡◌, ◌<◌, ℕ, [], length, map, replicate, slice_set, slice_index_or, IfOk};
ghost use Rattle.bk_object.specs.declared.kind.Kind.TheVariants.{Line};
ghost use Rattle.bk_store.specs.Stored.{first_of, has_place, queued, oldest, received, sent, without_first};
ghost use Rattle.bk_store.specs.Joined.{bytes_of, no_mail, waiting_of, with_new_input};

use bk_base::NoMemory;
use bk_object::{Kind, Slot};
use bk_queue::{LineIn, Mailbox, Message};
use std::alloc::Global;

// So many mailboxes, in which nothing waits.
pub(crate) fn empty_mailboxes(alloc: Global, slots: u16) -> Result<Vec<Mailbox>, NoMemory>
    ensures { IfOk result (λ mailboxes. map waiting_of mailboxes.items ≡ replicate slots no_mail) }
{
    let mut mailboxes = Vec::with_capacity(alloc, slots as usize)?;
    for done in 0..slots {
        match mailboxes.push(Mailbox::new()) {
            Ok(()) => {}
            Err(_) => return Err(NoMemory),
        }
    }
    Ok(mailboxes)
}

// So many lines, on which nothing waits.
pub(crate) fn empty_inputs(alloc: Global, lines: u8) -> Result<Vec<LineIn>, NoMemory>
    ensures { IfOk result (λ inputs. map bytes_of inputs.items ≡ replicate lines []) }
{
    let mut inputs = Vec::with_capacity(alloc, lines as usize)?;
    for done in 0..lines {
        match inputs.push(LineIn::new()) {
            Ok(()) => {}
            Err(_) => return Err(NoMemory),
        }
    }
    Ok(inputs)
}

// The message goes to the mailbox of the slot.
pub(crate) fn put_at(mailboxes: &mut Vec<Mailbox>, slot: Slot, words: [u16; 4]) -> bool
    requires { slot.n < length mailboxes.old.items }
    ensures kept { result ≡ has_place (slice_index_or (map waiting_of mailboxes.old.items) slot.n no_mail) }
    ensures rest { map waiting_of mailboxes.new.items ≡ slice_set (map waiting_of mailboxes.old.items) slot.n (sent words (slice_index_or (map waiting_of mailboxes.old.items) slot.n no_mail)) }
{
    put(&mut mailboxes[slot.n as usize], words)
}

// The message goes to the mailbox, and is lost where 16 wait; whether it is kept.
fn put(mailbox: &mut Mailbox, words: [u16; 4]) -> bool
    ensures kept { result ≡ has_place (waiting_of mailbox.old) }
    ensures rest { waiting_of mailbox.new ≡ sent words (waiting_of mailbox.old) }
{
    mailbox.put(words)
}

// The oldest message of the slot's mailbox, which waits no longer.
pub(crate) fn take_at(mailboxes: &mut Vec<Mailbox>, slot: Slot) -> Option<Message>
    requires { slot.n < length mailboxes.old.items }
    ensures message { result ≡ oldest (slice_index_or (map waiting_of mailboxes.old.items) slot.n no_mail) }
    ensures rest { map waiting_of mailboxes.new.items ≡ slice_set (map waiting_of mailboxes.old.items) slot.n (received (slice_index_or (map waiting_of mailboxes.old.items) slot.n no_mail)) }
{
    take(&mut mailboxes[slot.n as usize])
}

// The oldest message, which waits no longer.
fn take(mailbox: &mut Mailbox) -> Option<Message>
    ensures message { result ≡ oldest (waiting_of mailbox.old) }
    ensures rest { waiting_of mailbox.new ≡ received (waiting_of mailbox.old) }
{
    mailbox.take()
}

// The byte is typed on the line.
pub(crate) fn type_at(inputs: &mut Vec<LineIn>, line: u8, byte: u8)
    requires { line < length inputs.old.items }
    ensures { map bytes_of inputs.new.items ≡ slice_set (map bytes_of inputs.old.items) line (queued (slice_index_or (map bytes_of inputs.old.items) line []) byte) }
{
    type_on(&mut inputs[line as usize], byte);
}

// The byte waits on the line, and is lost where 64 wait.
fn type_on(input: &mut LineIn, byte: u8)
    ensures { bytes_of input.new ≡ queued (bytes_of input.old) byte }
{
    let _ = input.put(byte);
}

// The oldest byte of the line, which waits no longer.
pub(crate) fn take_typed(inputs: &mut Vec<LineIn>, line: u8) -> Option<u8>
    requires { line < length inputs.old.items }
    ensures byte { result ≡ first_of (slice_index_or (map bytes_of inputs.old.items) line []) }
    ensures rest { map bytes_of inputs.new.items ≡ slice_set (map bytes_of inputs.old.items) line (without_first (slice_index_or (map bytes_of inputs.old.items) line [])) }
{
    take_from(&mut inputs[line as usize])
}

// The oldest byte, which waits no longer.
fn take_from(input: &mut LineIn) -> Option<u8>
    ensures byte { result ≡ first_of (bytes_of input.old) }
    ensures rest { bytes_of input.new ≡ without_first (bytes_of input.old) }
{
    input.take()
}

// Nothing waits in the mailbox of the slot any more.
pub(crate) fn clear_mailbox(mailboxes: &mut Vec<Mailbox>, slot: Slot)
    requires { slot.n < length mailboxes.old.items }
    ensures { map waiting_of mailboxes.new.items ≡ slice_set (map waiting_of mailboxes.old.items) slot.n no_mail }
{
    mailboxes[slot.n as usize] = Mailbox::new();
}

// Nothing waits on the line any more, if the kind is one.
pub(crate) fn clear_input(inputs: &mut Vec<LineIn>, kind: Kind)
    requires { (n : ℕ) → kind ≡ Line n → n < length inputs.old.items }
    ensures { map bytes_of inputs.new.items ≡ with_new_input kind (map bytes_of inputs.old.items) }
{
    if let Kind::Line(n) = kind {
        inputs[n as usize] = LineIn::new();
    }
}
