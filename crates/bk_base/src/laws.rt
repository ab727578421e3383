ghost use Rattle.std.specs.Prelude.{◌≡◌, [], ◌∷◌, Ok, Err};
ghost use Rattle.bk_base.specs.Parts.{first_of};
ghost use Rattle.bk_base.specs.Example.{example_at};

/// Texts of the example's format: one that is read and what follows it, and the first fault of four others.
#[tactic(auto, unfolding(crate::specs::Parts::part))]
pub fn law_example()
    ensures read { first_of example_at (2 ∷ 7 ∷ 8 ∷ 9 ∷ []) ≡ Ok (7 ∷ 8 ∷ [], 3) }
    ensures check { first_of example_at (201 ∷ []) ≡ Err (0, 2) }
    ensures end { first_of example_at (2 ∷ 7 ∷ []) ≡ Err (2, 1) }
    ensures none { first_of example_at [] ≡ Err (0, 1) }
    // Too long goes before the end.
    ensures long { first_of example_at (3 ∷ 7 ∷ []) ≡ Err (1, 0) }
{}
