//! Levels: a class and a set of categories, when one dominates another, and the list of an image's levels.
//!
//! Model: `specs/Levels.antt` (`Level`, `Dominates`, `dominates`, `has_only_below`, `is_same_level`, `level_at`); `specs/Sameness.antt` (to be the
//! same level is an equivalence), `specs/Masks.antt` and `specs/Tables.antt` (levels and tables as the fields of the code).
//! Calls: `Level::lowest`, `dominates`, `has_only_first_word`, `==`; `LevelTable::new`, `push`, `get`, `at`, `has`, `len`,
//! `has_only_first_words`. (`law_order`, `law_antisymmetric`, `law_example` are empty functions, for their contracts.)
//! Proved: `dominates` is the partial order of classes and sets of categories, and two levels are the same exactly where each
//! dominates the other; a table has at most 64 levels, no two the same.
//! Tested: nothing that no clause says.
//! Neither: nothing.
//! Stands on: nothing.
#![tactic(auto)]

mod level;
mod table;

pub use level::{Level, law_antisymmetric, law_example, law_order};
pub use table::{LevelNo, LevelTable, MOST_LEVELS};
