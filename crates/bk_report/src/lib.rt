//! Items of a report, and the line of each.
//!
//! Model: `specs/Text.antt` (`text_of`, the line of an item; `lines_of`), `specs/Reading.antt` (`read_of`: an item is guessed,
//! printed again and compared), `specs/Lines.antt` (`line_records_of`).
//! Calls: `print`, `print_on`, `write_line`, `read_item`, `line_records`; `put`, `put_decimal`, `put_word`; `cut`;
//! `law_line_records`, `law_example`.
//! Proved: the line of an item is its text, and goes to a sink as that, an item is read exactly where its line stands in front, and the line records
//! of a report are those of its items that are bytes on these lines.
//! Tested: in `bk_suite`, a whole line of each kind, and the records of a report.
//! Neither: nothing.
//! Stands on: `arrayvec`, `bk_base`, `itoa`.
#![tactic(auto)]

mod item;
mod laws;
mod parts;
mod printing;
mod reading;
mod records;

pub use item::ReportItem;
pub use laws::{law_example, law_line_records};
pub use parts::cut;
pub use printing::{print, print_on, put, put_decimal, put_word, write_line};
pub use reading::read_item;
pub use records::line_records;
