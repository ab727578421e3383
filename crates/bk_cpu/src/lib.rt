//! One instruction over any bus, and a plain bus.
//!
//! Model: `exec` of `bk_exec`; `specs/Pages.antt` (`pages_of`), `specs/Plain.antt` (`Plain`, `page_in`, `pages_written`) for the
//! plain bus, `specs/Reached.antt` (`Reaches`, `left_by`, `result_of`) and `specs/Direct.antt` (`direct`) for the parts of
//! `step`.
//! Calls: `step`; `PlainBus::new`, `set_page`, `words`, `references`, and those of `Bus`.
//! Proved: `step` gives the definition's registers, write, number of references and event, over any bus, for every
//! instruction word; the plain bus is one, and its count of references stands at its last value.
//! Tested: nothing alone; `bk_case` has the worked rows of `step` and of a plain bus, and that `PlainBus::new` succeeds.
//! Neither: nothing.
//! Stands on: `bk_base`, `bk_exec`, `bk_isa`, `bk_operand`, `bk_space`, `bk_word`.
#![tactic(auto)]

mod control;
mod direct;
mod doubles;
mod extending;
mod law;
mod moving;
mod operands;
mod outcome;
mod page;
mod plain;
mod previous;
mod singles;
mod stack;
mod stepping;
mod words;

pub use bk_exec::Event;
pub use law::law_example_of_counts;
pub use page::{WORDS_OF_BLOCK, WORDS_OF_PAGE};
pub use plain::PlainBus;
pub use stepping::step;
