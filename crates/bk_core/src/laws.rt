// What words and bytes say of each other.

ghost use Rattle.std.specs.Prelude.{◌≡◌, [], ◌∷◌};
ghost use Rattle.bk_core.specs.Memory.{byte_at, with_byte, word_at};

/// A word of 123456 (octal) at address 2 has the byte 056 at that address and 247 above it; with the byte 101 there it is
/// 123501, and with the byte 377 above it 177456.
pub fn law_example()
    ensures word { word_at (0 ∷ 42798 ∷ []) 2 ≡ 42798 }
    ensures low { byte_at (0 ∷ 42798 ∷ []) 2 ≡ 46 }
    ensures high { byte_at (0 ∷ 42798 ∷ []) 3 ≡ 167 }
    ensures with_low { with_byte (0 ∷ 42798 ∷ []) 2 65 ≡ 0 ∷ 42817 ∷ [] }
    ensures with_high { with_byte (0 ∷ 42798 ∷ []) 3 255 ≡ 0 ∷ 65326 ∷ [] }
{}
