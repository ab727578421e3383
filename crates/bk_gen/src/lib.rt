//! Large runs that anyone can make again: an image of 279 objects and eight subjects at four levels, and a script of 4,096 slots
//! from a number.
//!
//! Model: `specs/Program.antt` (the program of all subjects), `specs/Subjects.antt` (levels, subjects and holds),
//! `specs/Objects.antt` (the objects), `specs/Image.antt` (`generated_image`), `specs/Numbers.antt` (the sequence of numbers),
//! `specs/Script.antt` (`generated_script`).
//! Calls: `generate`. (`law_example` is an empty function, for its contract.)
//! Proved: what is made is the image and the script that the definitions give; the image is accepted, its state is secure, and
//! its bytes are read as it again; the script is one for it; and what the example shows.
//! Tested: in `bk_suite`, lengths and sums of the image's bytes and of the scripts of 18 numbers, computed outside.
//! Neither: nothing.
//! Stands on: `bitflags`, `bk_base`, `bk_image`, `bk_level`, `bk_object`, `bk_path`, `bk_process`, `bk_quota`, `bk_script`,
//! `bk_space`, `bk_state`, `bk_system`.
#![tactic(auto)]

mod generating;
mod laws;
mod object;
mod row;
mod subject;
mod typing;

pub use bk_state::Image;
pub use bk_system::Script;
pub use generating::generate;
pub use laws::law_example;
