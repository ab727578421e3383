// What the definitions of a generated run come to, worked by hand.

ghost use Rattle.std.specs.Prelude.{◌≡◌, [], ◌∷◌};
ghost use Rattle.bk_gen.specs.Numbers.{number_after};
ghost use Rattle.bk_gen.specs.Objects.{line_object, segment};
ghost use Rattle.bk_gen.specs.Script.{typed_in};
ghost use Rattle.bk_gen.specs.Subjects.{subject_of};

/// The numbers after 0 and 1; what 0 types in slot 0, by a number whose high half is 15,470: line 2, and byte 32 and 3,867 modulo
/// 95; the word of the last segment; the level of line 3; and the path of line 2, which is `/3`, in R5 of subject 6.
#[tactic(auto, unfolding(crate::specs::Numbers::number_at))]
pub fn law_example()
    ensures after_0 { number_after 0 ≡ 1013904223 }
    ensures after_1 { number_after 1 ≡ 1015568748 }
    ensures typed { typed_in 0 0 ≡ record { slot = 0; line = 2; bytes = 99 ∷ [] } }
    ensures word { (segment 15 15).words ≡ 256 ∷ [] }
    ensures level { (line_object 3).facts.level ≡ 3 }
    ensures path { (subject_of 6).regs ≡ 0 ∷ 0 ∷ 0 ∷ 0 ∷ 0 ∷ 0x1300 ∷ [] }
{}
