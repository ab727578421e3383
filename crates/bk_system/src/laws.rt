ghost use Rattle.std.specs.Prelude.{◌≡◌, ℕ, List};
ghost use Rattle.bk_state.specs.declared.image.Image.{Image};
ghost use Rattle.bk_state.specs.Start.{state_of};
ghost use Rattle.bk_state.specs.State.{State};
ghost use Rattle.bk_system.specs.declared.script.TypedAt.{TypedAt as Typed};
ghost use Rattle.bk_system.specs.Loops.{all_arrived, slots_of, turns_of, with_slot_ended};
ghost use Rattle.bk_system.specs.Slot.{run_of, slot_of, subject_of};

/// A slot is its arrivals, its turns one after another, and its end; a run is its slots one after another.
pub fn law_loops()
    ensures slot { (slot : ℕ) (v : State) (records : List Typed) →
        slot_of slot v records ≡ with_slot_ended (turns_of slot (subject_of v.fixed slot) (all_arrived v records) v.fixed.turns) }
    ensures run { (image : Image) (records : List Typed) (n : ℕ) → run_of image records n ≡ slots_of (state_of image) records n }
{}
