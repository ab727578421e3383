//! Scripts: the bytes that are typed in a run, by slot and line, read from their text.
//!
//! Model: `specs/Limits.antt` (how long a script is), `specs/Fields.antt` (numbers and bytes as text), `specs/Lines.antt`
//! (`script_of`: the records, or the first fault), `specs/Fault.antt` (the word for each fault), `specs/Script.antt`
//! (`text_of`, `IsScript`).
//! Calls: `read_script`; `ScriptKind::text`; `law_read_again`, `law_example`.
//! Proved: a script is read exactly as its bytes spell it, and refused exactly with its first fault; what is read holds of
//! a script, and a script's text is read again.
//! Tested: in `bk_suite`, which fault is the first of texts with several, and what is read at the limits.
//! Neither: nothing.
//! Stands on: `bk_base`, `bk_report`, `bk_state`, `bk_system`, `hex`.
#![tactic(auto)]

mod fault;
mod field;
mod laws;
mod line;
mod reading;

pub use bk_system::{Script, TypedAt, TypedList};
pub use fault::{ScriptFault, ScriptKind, ScriptStop};
pub use laws::{law_example, law_read_again};
pub use reading::read_script;
