ghost use Rattle.std.specs.Prelude.{[], ◌∷◌, ◌≡◌, ◌<◌, ℕ, true, Some, None, length, map};
ghost use Rattle.bk_process.specs.declared.process.Process.{Process};
ghost use Rattle.bk_state.specs.Answers.{called};
ghost use Rattle.bk_state.specs.Calls.{call_of, calls, definition_of};
ghost use Rattle.bk_state.specs.Causes.{is_in_order, order};
ghost use Rattle.bk_state.specs.Secure.{Secure};
ghost use Rattle.bk_state.specs.Smallest.{smallest};
ghost use Rattle.bk_state.specs.State.{State, clearance_of};

use crate::{Call, Rule, Service};

/// A secure state is there: that of root alone, which its one subject holds by write.
pub fn law_smallest()
    ensures { Secure smallest }
{}

/// The checks of each call stand in the one order of all checks.
pub fn law_order_of_checks()
    ensures { (call : Call) → is_in_order (definition_of call).checks order ≡ true }
{}

/// The calls have the numbers 1 to 27 (octal): nine rules, the other services, and the tenth rule.
pub fn law_numbers()
    ensures none { call_of 0 ≡ None }
    ensures rules { map call_of (1 ∷ 2 ∷ 3 ∷ 4 ∷ 5 ∷ 6 ∷ 7 ∷ 0o10 ∷ 0o11 ∷ []) ≡
        Some (Call.ByRule Rule.GetRead) ∷ Some (Call.ByRule Rule.GetAppend) ∷ Some (Call.ByRule Rule.GetExecute)
        ∷ Some (Call.ByRule Rule.GetWrite) ∷ Some (Call.ByRule Rule.Release) ∷ Some (Call.ByRule Rule.Give)
        ∷ Some (Call.ByRule Rule.Rescind) ∷ Some (Call.ByRule Rule.Create) ∷ Some (Call.ByRule Rule.DeleteGroup) ∷ [] }
    ensures services { map call_of (0o12 ∷ 0o13 ∷ 0o14 ∷ 0o15 ∷ 0o16 ∷ 0o17 ∷ 0o20 ∷ 0o21 ∷ 0o22 ∷ 0o23 ∷ 0o24 ∷ 0o25 ∷ 0o26 ∷ []) ≡
        Some (Call.Other Service.Window) ∷ Some (Call.Other Service.Unwindow) ∷ Some (Call.Other Service.Deposit)
        ∷ Some (Call.Other Service.Send) ∷ Some (Call.Other Service.Receive) ∷ Some (Call.Other Service.LineOut)
        ∷ Some (Call.Other Service.LineIn) ∷ Some (Call.Other Service.Entry) ∷ Some (Call.Other Service.Identify)
        ∷ Some (Call.Other Service.Quota) ∷ Some (Call.Other Service.Pause) ∷ Some (Call.Other Service.SetFaultEntry)
        ∷ Some (Call.Other Service.Stop) ∷ [] }
    ensures tenth { call_of 0o27 ≡ Some (Call.ByRule Rule.RaiseLevel) }
    ensures past { (n : ℕ) → 0o27 < n → call_of n ≡ None }
{}

/// A call looks at the objects, the current access set and the levels, at the number of subjects and the caller's own
/// levels, and at nothing else of the state.
pub fn law_what_a_call_looks_at()
    ensures { (v w : State) (s : ℕ) → v.objects ≡ w.objects → v.access ≡ w.access → v.fixed.levels ≡ w.fixed.levels → clearance_of v s ≡ clearance_of w s → length v.fixed.subjects ≡ length w.fixed.subjects → (p : Process) (number : ℕ) → called v s p number ≡ called w s p number }
{}
