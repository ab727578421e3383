ghost use Rattle.std.specs.Prelude.{ℕ, List};
ghost use Rattle.bk_level.specs.Levels.{Level};
ghost use Rattle.bk_system.specs.Kept.{keep};
ghost use Rattle.bk_script.specs.Script.{IsScript};
ghost use Rattle.bk_state.specs.Start.{state_of};
ghost use Rattle.bk_state.specs.declared.image.Image.{Image};
ghost use Rattle.bk_system.specs.declared.script.TypedAt.{TypedAt};

/// A script without the bytes typed on lines that are not under a level is a script for the same image, with as many slots.
pub fn law_kept_script()
    ensures { (level : Level) (image : Image) (records : List TypedAt) (slots : ℕ) → IsScript image.lines image.turns records slots
        → IsScript image.lines image.turns (keep level (state_of image) records) slots }
{}
