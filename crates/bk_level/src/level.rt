// A level, its class in a byte and its categories in three words.

ghost use Rattle.std.specs.Prelude.{◌≡◌, ◌↔◌, ◌<◌, ◌^◌, ℕ, [], ◌∷◌, true, false, IsTrue};
ghost use Rattle.std.specs.Cmp.{partial_equiv_from_equiv};
ghost use Rattle.bk_level.specs.Levels as model;
ghost use Rattle.bk_level.specs.Masks.{categories_of, mask_of};
ghost use Rattle.bk_level.specs.Sameness.{is_same_level-equiv};

use std::marker::Model;

/// A class of 0 to 255 and a set of categories of 0 to 47. Category c is bit c mod 16 of word c / 16 of `cats`.
///
/// A clause sees it as its class and the list of its categories, which are the places of the bits.
#[derive(Clone, Copy, Debug)]
pub struct Level {
    pub class: u8,
    pub cats: [u16; 3],
}

impl Model for Level {
    ghost use Rattle.bk_level.specs.Levels.{Level as Labelled};

    ghost Value = { Labelled };

    ghost use Rattle.bk_level.specs.Masks.{level_of, FitsFields, fields_of, fields_of-level_of};

    ghost view = { level_of };

    ghost invariant = { FitsFields };

    ghost inverse = { fields_of };

    ghost inverse_ok = { fields_of-level_of };
}

impl PartialEq for Level {
    ghost eq = { model.is_same_level };

    ghost laws = { partial_equiv_from_equiv is_same_level-equiv };

    fn eq(&self, other: &Level) -> bool {
        self.class == other.class && self.mask() == other.mask()
    }
}

impl Eq for Level {
    ghost laws = { is_same_level-equiv };
}

impl Level {
    /// The lowest level: class 0 and no categories.
    #[tactic(auto, unfolding(crate::specs::Masks::categories_of))]
    pub fn lowest() -> Level
        ensures { result ≡ model.lowest }
    {
        Level {
            class: 0,
            cats: [0, 0, 0],
        }
    }

    /// Whether this level's class is at least the other's, and it has all of the other's categories (MTR-2997).
    pub fn dominates(self, other: Level) -> bool
        ensures value { result ≡ model.dominates self other }
        ensures fact { IsTrue result ↔ model.Dominates self other }
    {
        self.has_at_least(other)
    }

    /// Whether each category is below 16, so that all stand in the first word.
    pub fn has_only_first_word(&self) -> bool
        ensures { result ≡ model.has_only_below 16 self.now }
    {
        self.cats[1] == 0 && self.cats[2] == 0
    }

    // The masks are compared: each bit of the other's is one of this one's.
    fn has_at_least(self, other: Level) -> bool
        ensures { result ≡ model.dominates self other }
    {
        other.class <= self.class && other.mask() & self.mask() == other.mask()
    }

    // The words as one number of 48 bits, the first word lowest.
    fn mask(self) -> u64
        ensures value { result ≡ mask_of self.categories }
        ensures categories { self.categories ≡ categories_of result }
        ensures small { result < 2 ^ 48 }
    {
        u64::from(self.cats[0])
            + u64::from(self.cats[1]) * 0x1_0000
            + u64::from(self.cats[2]) * 0x1_0000_0000
    }
}

/// Dominates is an order: reflexive, antisymmetric and transitive.
pub fn law_order()
    ensures reflexive { (a : model.Level) → model.Dominates a a }
    ensures antisymmetric { (a b : model.Level) → model.Dominates a b → model.Dominates b a →
        (a.class ≡ b.class) × ((category : ℕ) → model.HasCategory a category ↔ model.HasCategory b category) }
    ensures transitive { (a b c : model.Level) → model.Dominates a b → model.Dominates b c → model.Dominates a c }
{}

/// Two levels that dominate each other are the same level.
pub fn law_antisymmetric(a: Level, b: Level)
    ensures { model.Dominates a b → model.Dominates b a → a ≡ b }
{
    let _ = &a.class;
    let _ = &b.class;
}

/// Levels worked by hand: classes 2 and 1 with categories 0 and 1. Each dominates what it has all of; neither of two with other
/// categories dominates; the order of categories, and one that is named twice, make no other level.
pub fn law_example()
    ensures above { model.dominates (record { class = 2; categories = 0 ∷ 1 ∷ [] }) (record { class = 1; categories = 1 ∷ [] }) ≡ true }
    ensures apart { model.dominates (record { class = 2; categories = 0 ∷ [] }) (record { class = 1; categories = 1 ∷ [] }) ≡ false }
    ensures below { model.dominates (record { class = 1; categories = 1 ∷ [] }) (record { class = 2; categories = 1 ∷ [] }) ≡ false }
    ensures same { model.is_same_level (record { class = 1; categories = 0 ∷ 1 ∷ [] }) (record { class = 1; categories = 1 ∷ 0 ∷ 1 ∷ [] }) ≡ true }
    ensures other { model.is_same_level (record { class = 1; categories = 0 ∷ 1 ∷ [] }) (record { class = 1; categories = 0 ∷ [] }) ≡ false }
{}

#[cfg(test)]
mod tests {
    use super::Level;

    fn level(class: u8, cats: [u16; 3]) -> Level {
        Level { class, cats }
    }

    // A level, another, and whether the first one dominates.
    #[test]
    fn dominates_by_class_and_by_categories(rt: HostRuntime) {
        let rows = [
            (level(2, [0b10, 0, 0]), level(2, [0b10, 0, 0]), true),
            (level(2, [0b11, 0, 0]), level(1, [0b10, 0, 0]), true),
            (level(1, [0b11, 0, 0]), level(2, [0b10, 0, 0]), false),
            (level(2, [0b10, 0, 0]), level(1, [0b11, 0, 0]), false),
            (level(1, [0b01, 0, 0]), level(0, [0b10, 0, 0]), false), // neither dominates
            (level(255, [0x8000, 0, 0]), level(255, [0x8000, 0, 0]), true),
            (
                level(255, [0x7fff, 0xffff, 0xffff]),
                level(0, [0x8000, 0, 0]),
                false,
            ),
            (level(1, [0, 1, 0]), level(1, [0, 1, 0]), true), // category 16
            (level(1, [1, 0xfffe, 1]), level(1, [0, 1, 0]), false),
            (level(1, [0, 0x8000, 0]), level(1, [0, 0x8000, 0]), true), // category 31
            (
                level(1, [0x8000, 0x7fff, 0x8000]),
                level(1, [0, 0x8000, 0]),
                false,
            ),
            (level(1, [0, 0, 1]), level(1, [0, 0, 1]), true), // category 32
            (level(1, [1, 1, 0xfffe]), level(1, [0, 0, 1]), false),
            (level(1, [0, 0, 0x8000]), level(1, [0, 0, 0x8000]), true), // category 47
            (
                level(1, [0x8000, 0x8000, 0x7fff]),
                level(1, [0, 0, 0x8000]),
                false,
            ),
        ];
        for (above, below, dominates) in rows {
            assert_eq!(rt; above.dominates(below), dominates);
        }
    }
}
