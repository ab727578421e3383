//! One instruction of the PDP-11/45, from the registers and the pages alone.
//!
//! Model: `specs/Exec.antt` (`exec`, `executed`), by groups in `specs/Operands.antt` (`double_of`, `single_of`),
//! `specs/Extended.antt` (`extending`), `specs/Control.antt` (`is_taken`, `jumping`) and `specs/Previous.antt`
//! (`moving_from`), over `specs/Given.antt` (`pushed`, `popped`); `specs/Laws.antt` (`ChangesNothing`, `IsAllowed`) and
//! `specs/Example.antt` for the laws.
//! Calls: none. (`law_faults`, `law_most_references`, `law_registers`, `law_write` and `law_example` are empty functions, for their
//! contracts.)
//! Proved: a fault from 0 to 4 changes nothing, no instruction makes more than eight references, its write completes, and it
//! leaves as many general registers as it found. That `step` is this definition over any bus is proved in `bk_cpu`.
//! Tested: nothing alone; 3,944 steps of an outside model are compared in `bk_vectors`.
//! Neither: nothing.
//! Stands on: `bk_isa`, `bk_operand`, `bk_space`.
#![tactic(auto)]

mod ending;
mod event;
mod law;

pub use ending::Ending;
pub use event::Event;
pub use law::{law_example, law_faults, law_most_references, law_registers, law_write};
