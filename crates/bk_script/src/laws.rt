ghost use Rattle.std.specs.Prelude.{◌≡◌, ◌<◌, ◌≤◌, ◌^◌, ℕ, List, [], ◌∷◌, Ok, Err, codes, length};
ghost use Rattle.bk_script.specs.Fault.{fault_at};
ghost use Rattle.bk_script.specs.declared.fault.ScriptKind.TheVariants as kind;
ghost use Rattle.bk_system.specs.declared.TypedAt.{TypedAt};
ghost use Rattle.bk_script.specs.Limits.{most_bytes};
ghost use Rattle.bk_script.specs.Lines.{script_of};
ghost use Rattle.bk_script.specs.Script.{IsScript, text_of};

/// A script whose text isn't too long is read again from it.
pub fn law_read_again()
    ensures { (lines turns slots : ℕ) (records : List TypedAt) → lines < 2 ^ 8 → IsScript lines turns records slots
        → length (text_of records slots) ≤ most_bytes → script_of lines turns (text_of records slots) ≡ Ok (records, slots) }
{}

/// A script of one record, and the first fault where the image has no such line or too many turns.
#[tactic(auto, unfolding(crate::specs::Lines::script_of, crate::specs::Lines::lines_at, crate::specs::Lines::line_of))]
pub fn law_example()
    ensures read { script_of 2 32 (codes "0 1 6a\nEND 1\n") ≡ Ok (record { slot = 0; line = 1; bytes = 106 ∷ [] } ∷ [], 1) }
    ensures line { script_of 1 32 (codes "0 1 6a\nEND 1\n") ≡ Err (fault_at 1 kind.Line) }
    ensures turns { script_of 1 4096 (codes "END 1025\n") ≡ Err (fault_at 1 kind.Limit) }
{}
