// The decision.

ghost use Rattle.std.specs.Prelude.{◌≡◌, [], ◌∷◌, ℕ, true, false, IsTrue};
ghost use Rattle.bk_state.specs.declared.cause.CallCause.TheVariants as causes;
ghost use Rattle.bk_state.specs.Allowed.{by_mode, is_star};
ghost use Rattle.bk_state.specs.Calls.{refusal as refusal_in_state, rule_call};
ghost use Rattle.bk_state.specs.Request.{Request};
ghost use Rattle.bk_state.specs.State as model;
ghost use Rattle.bk_rules.specs.Decisions as decisions;
ghost use Rattle.bk_rules.specs.Example.{rising, seen_from};
ghost use Rattle.bk_state.specs.Example.{low, marked, middle};
ghost use Rattle.bk_rules.specs.declared.answers.Decision.TheVariants.{No, Yes};

use crate::RuleFacts;
use bk_object::Modes;
use bk_state::{CallCause, Rule};

/// The answer of a rule, with the number of the cause of a refusal.
#[derive(Clone, Copy, PartialEq, Eq, Debug)]
pub enum Decision {
    Yes,
    /// A cause of 1 to 12.
    No(u8),
    /// A cause of 20 to 25: the caller isn't to know more.
    Unknown(u8),
}

/// The answer of the rule: yes, or the cause of the first of its checks that fails.
pub fn decide(facts: &RuleFacts, rule: Rule) -> Decision
    ensures answer { result ≡ decisions.answer facts.now rule }
{
    match refusal(facts, rule) {
        None => Decision::Yes,
        Some(cause) if cause.is_no() => Decision::No(cause.number()),
        Some(cause) => Decision::Unknown(cause.number()),
    }
}

/// The first of the rule's checks that fails.
///
/// The order is: not named, no object, of a wrong kind, root, parent not written, not in the row, above the greatest level,
/// wrong current level, a level that falls, taken, over quota, what is held. Each is made only for the rules that list it.
pub fn refusal(facts: &RuleFacts, rule: Rule) -> Option<CallCause>
    ensures first { result ≡ decisions.refusal_by facts.now rule }
{
    match rule {
        Rule::Release => None,
        Rule::RaiseLevel => raise(facts),
        _ if !facts.named => Some(CallCause::NotNamed),
        Rule::Create => create(facts),
        _ if !facts.there => Some(CallCause::NoObject),
        Rule::DeleteGroup => change_below(facts),
        Rule::Give | Rule::Rescind if !facts.modes.is_within(facts.kind.modes()) => {
            Some(CallCause::WrongKind)
        }
        Rule::Give | Rule::Rescind => change_below(facts),
        Rule::GetRead | Rule::GetAppend | Rule::GetExecute | Rule::GetWrite => get(facts, rule),
    }
}

/// Over the facts of a state, the first check of the rule that fails is the first that fails in the state, and the answer is
/// that check's.
pub fn law_answers()
    ensures refusal { (v : model.State) (s : ℕ) (rule : Rule) (request : Request) →
        decisions.refusal_by (decisions.facts_of v s rule request) rule ≡ refusal_in_state v s rule request }
    ensures answer { (v : model.State) (s : ℕ) (rule : Rule) (request : Request) →
        decisions.answer (decisions.facts_of v s rule request) rule ≡ decisions.answer_for (refusal_in_state v s rule request) }
{}

/// Who may come to hold a segment by which mode, and who may raise its level, at levels that were worked by hand.
pub fn law_example()
    ensures above_greatest { decisions.answer (seen_from low low middle) Rule.GetRead ≡ No 2 }
    ensures above_current { decisions.answer (seen_from middle low middle) Rule.GetRead ≡ No 3 }
    ensures read { decisions.answer (seen_from middle middle middle) Rule.GetRead ≡ Yes }
    ensures category { decisions.answer (seen_from middle middle marked) Rule.GetRead ≡ No 2 }
    ensures not_in_row { decisions.answer (seen_from middle middle middle) Rule.GetExecute ≡ No 1 }
    ensures write_below { decisions.answer (seen_from middle middle low) Rule.GetWrite ≡ No 3 }
    ensures append_below { decisions.answer (seen_from middle middle low) Rule.GetAppend ≡ No 3 }
    ensures append_above { decisions.answer (seen_from low low middle) Rule.GetAppend ≡ Yes }
    ensures not_written { decisions.answer (seen_from middle middle middle) Rule.Create ≡ No 4 }
    ensures rise_above_greatest { decisions.answer (rising low low middle true) Rule.RaiseLevel ≡ No 2 }
    ensures fall { decisions.answer (rising middle middle low true) Rule.RaiseLevel ≡ No 3 }
    ensures rise_while_held { decisions.answer (rising middle low middle false) Rule.RaiseLevel ≡ No 12 }
    ensures rise { decisions.answer (rising middle low middle true) Rule.RaiseLevel ≡ Yes }
{}

// The last checks of create, for a named object.
fn create(facts: &RuleFacts) -> Option<CallCause>
    requires { IsTrue facts.now.named }
    ensures first { result ≡ decisions.refusal_by facts.now Rule.Create }
{
    if facts.root || !facts.parent_write {
        change_below(facts)
    } else if !facts.new_level.dominates(facts.parent_level) {
        Some(CallCause::LevelFalls)
    } else if facts.taken {
        Some(CallCause::Taken)
    } else if !facts.fits {
        Some(CallCause::OverQuota)
    } else {
        None
    }
}

// The checks of a raise: the new level lies between the caller's current and greatest one, and what is held allows it.
fn raise(facts: &RuleFacts) -> Option<CallCause>
    ensures first { result ≡ decisions.refusal_by facts.now Rule.RaiseLevel }
{
    if !facts.f_s.dominates(facts.new_level) {
        Some(CallCause::AboveGreatest)
    } else if !facts.new_level.dominates(facts.f_c) {
        Some(CallCause::WrongCurrent)
    } else if !facts.rises {
        Some(CallCause::StarProperty)
    } else {
        None
    }
}

// The checks for a change below a directory: of an object that isn't root, and whose parent the caller holds by write.
fn change_below(facts: &RuleFacts) -> Option<CallCause>
    ensures first { result ≡ decisions.first_of (causes.IsRoot ∷ causes.NoParentWrite ∷ []) facts.now Rule.DeleteGroup }
{
    if facts.root {
        Some(CallCause::IsRoot)
    } else if !facts.parent_write {
        Some(CallCause::NoParentWrite)
    } else {
        None
    }
}

// The last checks of the four rules by which a subject comes to hold an object that is named and there. Get-append doesn't
// ask for the greatest level.
fn get(facts: &RuleFacts, rule: Rule) -> Option<CallCause>
    requires get { IsTrue (decisions.is_get rule) }
    requires named { IsTrue facts.now.named }
    requires there { IsTrue facts.now.there }
    ensures first { result ≡ decisions.refusal_by facts.now rule }
{
    let mode = mode_of(rule);
    if !mode.is_within(facts.kind.modes()) {
        Some(CallCause::WrongKind)
    } else if !mode.is_within(facts.row) {
        Some(CallCause::NotInRow)
    } else if rule != Rule::GetAppend && !facts.f_s.dominates(facts.f_o) {
        Some(CallCause::AboveGreatest)
    } else if !is_star(facts, rule) {
        Some(CallCause::WrongCurrent)
    } else {
        None
    }
}

/// The mode that one of the four rules asks for by which a subject comes to hold an object.
pub fn mode_of(rule: Rule) -> Modes
    requires { IsTrue (decisions.is_get rule) }
    ensures mode { (request : Request) → result ≡ (rule_call rule).modes request }
{
    match rule {
        Rule::GetAppend => Modes::A,
        Rule::GetExecute => Modes::E,
        Rule::GetWrite => Modes::W,
        _ => Modes::R,
    }
}

// Whether the current level stands to the object's as the *-property asks for the rule's mode.
fn is_star(facts: &RuleFacts, rule: Rule) -> bool
    ensures star { result ≡ by_mode (λ mode. is_star mode facts.now.f_c facts.now.f_o) (rule_call rule).mode }
{
    match rule {
        Rule::GetRead | Rule::GetExecute => facts.f_c.dominates(facts.f_o),
        Rule::GetAppend => facts.f_o.dominates(facts.f_c),
        Rule::GetWrite => facts.f_o == facts.f_c,
        Rule::Release
        | Rule::Give
        | Rule::Rescind
        | Rule::Create
        | Rule::DeleteGroup
        | Rule::RaiseLevel => true,
    }
}
