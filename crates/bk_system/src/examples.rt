// Values worked by hand, which a wrong definition would miss.

ghost use Rattle.std.specs.Prelude.{◌≡◌, ◌++◌, true, false, [], ◌∷◌, map, replicate};
ghost use Rattle.bk_state.specs.State.{Typed as Waiting};
ghost use Rattle.bk_system.specs.Arrivals.{typed};
ghost use Rattle.bk_system.specs.Event.{Arrive, EndSlot, Turn};
ghost use Rattle.bk_system.specs.Example.{alternating, turn_at};
ghost use Rattle.bk_system.specs.Slot.{run_events, slot_events, subject_of};
ghost use Rattle.bk_system.specs.Space.{rights_by};
ghost use Rattle.bk_system.specs.Turn.{less};

use bk_space::Rights;

/// Two subjects in turn, with two turns each: the events of three slots, and of one in which bytes are typed.
pub fn law_events()
    ensures subjects { map (subject_of alternating) (0 ∷ 1 ∷ 2 ∷ 3 ∷ []) ≡ 0 ∷ 1 ∷ 0 ∷ 1 ∷ [] }
    ensures slot { slot_events alternating 3 [] ≡ Turn (turn_at 3 0 1) ∷ Turn (turn_at 3 1 1) ∷ EndSlot ∷ [] }
    ensures run { run_events alternating [] 3 ≡
        Turn (turn_at 0 0 0) ∷ Turn (turn_at 0 1 0) ∷ EndSlot
        ∷ Turn (turn_at 1 0 1) ∷ Turn (turn_at 1 1 1) ∷ EndSlot
        ∷ Turn (turn_at 2 0 0) ∷ Turn (turn_at 2 1 0) ∷ EndSlot ∷ [] }
{}

/// A line that has one byte takes two more in their order; one that has 63 takes the first of two. Instruction space is read by e
/// alone; data space is written by w and read by r. The words of a reflection stand around the end of the space.
pub fn law_space()
    ensures bytes { typed (104 ∷ 105 ∷ []) (Waiting (7 ∷ [])) ≡ Waiting (7 ∷ 104 ∷ 105 ∷ []) }
    ensures full { typed (104 ∷ 105 ∷ []) (Waiting (replicate 63 7)) ≡ Waiting (replicate 63 7 ++ 104 ∷ []) }
    ensures execute { rights_by false true true true ≡ Rights.Read }
    ensures unexecuted { rights_by false true false true ≡ Rights.None }
    ensures write { rights_by true true true true ≡ Rights.Write }
    ensures read { rights_by true true true false ≡ Rights.Read }
    ensures unread { rights_by true false true false ≡ Rights.None }
    ensures below { less 0o400 2 ≡ 0o376 }
    ensures around { less 2 4 ≡ 0o177776 }
{}
