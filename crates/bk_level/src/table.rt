// The list of an image's levels, by whose places objects and subjects name theirs.

ghost use Rattle.std.specs.Prelude.{◌≡◌, ◌≤◌, ◌↔◌, [], ◌∷◌, ◌++◌, length, IsTrue, OnOk, OnErr, slice_get};
ghost use Rattle.std.specs.List.{IsDistinct, list_all};
ghost use Rattle.bk_level.specs.Levels.{has_level, has_only_below, is_same_level, level_at, most_levels};

use crate::Level;
use std::marker::Model;

/// How many levels a table has at most.
pub const MOST_LEVELS: usize = 64;

/// At most 64 levels, no two the same. A level's number is its place in the table.
///
/// A clause sees it as the list of its levels.
#[derive(Clone, Copy, Debug)]
pub struct LevelTable {
    levels: [Level; MOST_LEVELS],
    len: u8,
}

/// Why a level gets no number.
#[derive(Clone, Copy, PartialEq, Eq, Debug)]
pub enum LevelNo {
    /// The table has 64 levels.
    Full,
    /// The level stands there already.
    Doubled,
}

impl Model for LevelTable {
    ghost use Rattle.std.specs.Prelude.{List};
    ghost use Rattle.bk_level.specs.Levels.{Level as Labelled};

    ghost Value = { List Labelled };

    ghost use Rattle.bk_level.specs.Tables.{levels_of, IsTable, table_of, table_of-levels_of};

    ghost view = { levels_of };

    ghost invariant = { IsTable };

    ghost inverse = { table_of };

    ghost inverse_ok = { table_of-levels_of };
}

impl LevelTable {
    /// A table with no levels.
    pub fn new() -> LevelTable
        ensures { result ≡ [] }
    {
        LevelTable {
            levels: [Level {
                class: 0,
                cats: [0, 0, 0],
            }; MOST_LEVELS],
            len: 0,
        }
    }

    /// Gives the level the next number. A refusal changes nothing.
    pub fn push(&mut self, level: Level) -> Result<(), LevelNo>
        ensures ok { OnOk result (self.new ≡ self.old ++ level ∷ []) }
        ensures err { OnErr result (self.new ≡ self.old) }

        // Doubled goes before Full.
        ensures doubled { (result ≡ Err LevelNo.Doubled) ↔ IsTrue (has_level self.old level) }
        ensures full { (result ≡ Err LevelNo.Full) ↔ ((length self.old ≡ most_levels) × ¬ IsTrue (has_level self.old level)) }
    {
        if self.has(level) {
            return Err(LevelNo::Doubled);
        }
        if self.len as usize == MOST_LEVELS {
            return Err(LevelNo::Full);
        }
        self.levels[self.len as usize] = level;
        self.len += 1;
        Ok(())
    }

    /// The level with that number: None exactly from the length on.
    pub fn get(&self, n: u8) -> Option<Level>
        ensures { result ≡ slice_get self.now n }
    {
        if n < self.len {
            Some(self.levels[n as usize])
        } else {
            None
        }
    }

    /// The level with that number; the lowest from the length on.
    pub fn at(&self, n: u8) -> Level
        ensures { result ≡ level_at self.now n }
    {
        self.get(n).unwrap_or(Level::lowest())
    }

    /// How many levels there are.
    pub fn len(&self) -> u8
        ensures value { result ≡ length self.now }
        ensures few { length self.now ≤ most_levels }
        ensures distinct { IsDistinct is_same_level self.now }
    {
        self.len
    }

    /// Whether the level stands in the table.
    pub fn has(&self, level: Level) -> bool
        ensures { result ≡ has_level self.now level }
    {
        self.levels[..self.len as usize].contains(&level)
    }

    /// Whether each category of each level is below 16.
    pub fn has_only_first_words(&self) -> bool
        ensures { result ≡ list_all (has_only_below 16) self.now }
    {
        self.levels[..self.len as usize]
            .iter()
            .all(|level| level.has_only_first_word())
    }
}

#[cfg(test)]
mod tests {
    use super::{LevelNo, LevelTable};
    use crate::Level;

    // 64 levels get their numbers; then a doubled one and a new one are refused, and nothing changes.
    #[test]
    fn takes_64_distinct_levels(rt: HostRuntime) {
        let mut table = LevelTable::new();
        for class in 0..64u8 {
            assert_eq!(rt;
                table.push(Level {
                    class,
                    cats: [1, 0, 0]
                }),
                Ok(())
            );
        }
        assert_eq!(rt;
            table.push(Level {
                class: 63,
                cats: [1, 0, 0]
            }),
            Err(LevelNo::Doubled)
        );
        assert_eq!(rt;
            table.push(Level {
                class: 64,
                cats: [1, 0, 0]
            }),
            Err(LevelNo::Full)
        );
        assert_eq!(rt; table.len(), 64);
        assert_eq!(rt;
            table.get(63),
            Some(Level {
                class: 63,
                cats: [1, 0, 0]
            })
        );
        assert_eq!(rt; table.get(64), None);
    }
}
