// What the changes of the current access set say at each subject and slot.

ghost use Rattle.std.specs.Prelude.{◌≡◌, ℕ, ◌==◌, ◌&&◌, ◌||◌, not, false};
ghost use Rattle.bk_object.specs.Modes.{AccessMode, has, no_modes, union, without};
ghost use Rattle.bk_object.specs.declared.modes.Modes.{Modes};
ghost use Rattle.bk_access.specs.Held.{Held, added, cleared, holds, modes_at, nothing_held, removed};

/// Nothing is held at first; a change at one subject and slot leaves every other subject and every other slot; no
/// subject holds a cleared slot.
pub fn law_held()
    ensures nothing { (slots subject slot : ℕ) → modes_at (nothing_held slots) subject slot ≡ no_modes }
    ensures added { (subject slot : ℕ) (modes : Modes) (held : Held) → modes_at (added subject slot modes held) subject slot ≡ union (modes_at held subject slot) modes }
    ensures added_elsewhere { (subject slot s k : ℕ) (modes : Modes) (held : Held) → ¬ ((s ≡ subject) × (k ≡ slot)) → modes_at (added subject slot modes held) s k ≡ modes_at held s k }
    ensures removed { (subject slot : ℕ) (modes : Modes) (held : Held) → modes_at (removed subject slot modes held) subject slot ≡ without (modes_at held subject slot) modes }
    ensures removed_elsewhere { (subject slot s k : ℕ) (modes : Modes) (held : Held) → ¬ ((s ≡ subject) × (k ≡ slot)) → modes_at (removed subject slot modes held) s k ≡ modes_at held s k }
    ensures cleared { (slot s : ℕ) (held : Held) → modes_at (cleared slot held) s slot ≡ no_modes }
    ensures cleared_elsewhere { (slot s k : ℕ) (held : Held) → ¬ (k ≡ slot) → modes_at (cleared slot held) s k ≡ modes_at held s k }
{}

/// Who holds what, one mode at a time, as a set of triples: what is added joins it, and what is removed or cleared leaves it.
pub fn law_holds()
    ensures nothing { (slots s k : ℕ) (mode : AccessMode) → holds (nothing_held slots) s k mode ≡ false }
    ensures added { (subject slot s k : ℕ) (modes : Modes) (held : Held) (mode : AccessMode) → holds (added subject slot modes held) s k mode ≡ (holds held s k mode || (((s == subject) && (k == slot)) && has modes mode)) }
    ensures removed { (subject slot s k : ℕ) (modes : Modes) (held : Held) (mode : AccessMode) → holds (removed subject slot modes held) s k mode ≡ (holds held s k mode && not (((s == subject) && (k == slot)) && has modes mode)) }
    ensures cleared { (slot s k : ℕ) (held : Held) (mode : AccessMode) → holds (cleared slot held) s k mode ≡ (holds held s k mode && not (k == slot)) }
{}
