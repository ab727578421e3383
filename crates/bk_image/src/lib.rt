//! Images of versions 1 and 2: what a run starts from, read from bytes and written as bytes, and the first fault of bytes
//! that are no image.
//!
//! Model: `specs/Limits.antt` (how long an image is), `specs/Parts.antt` (parts, places and faults), `specs/Numbers.antt`
//! (numbers and paths in bytes), `specs/Versions.antt` (all in which the versions differ), `specs/Header.antt`,
//! `specs/Subjects.antt`, `specs/Objects.antt` and `specs/Holds.antt` (each kind of part, its checks in their order),
//! `specs/Image.antt` (`image_of`: the image, or the first fault), `specs/Spelling.antt` (`spelling`), `specs/Writing.antt`
//! (`written_image`), `specs/Accepted.antt` (`IsAccepted`), `specs/Texts.antt` (the word for each fault),
//! `specs/Example.antt`. `specs/Views.antt` says what the code keeps.
//! Calls: `read_image`, `write_image`, `write_with_levels`; `ImageField::text`; `law_no_prefix`, `law_version`,
//! `law_example`.
//! Proved: `read_image` gives exactly the image that the first bytes spell and their number, or exactly the first fault and
//! its place; what is read passed all checks, and its state is secure; `write_image` gives exactly the spelling, which is of
//! version 1 exactly where that can say the image, or exactly why there is none; no image's bytes are a proper prefix of
//! another's, and each image has one spelling.
//! Tested: in `bk_suite`, which bytes the sample has, which fault spoilt ones have, and that `long` comes before `end`.
//! Neither: nothing.
//! Stands on: `bitflags`, `bk_base`, `bk_level`, `bk_object`, `bk_path`, `bk_process`, `bk_quota`, `bk_space`,
//! `bk_state`, `byteorder`.
#![tactic(auto)]

mod fault;
mod header;
mod hold;
mod laws;
mod level;
mod limits;
mod lookup;
mod object;
mod part;
mod put;
mod quota;
mod reading;
mod rest;
mod row;
mod schedule;
mod subject;
mod version;
mod window;
mod writing;

pub use bk_state::{
    Hold, Holds, Image, ObjectRec, Objects, SubjectRec, Subjects, WindowRec, Windows,
};
pub use fault::{ImageFault, ImageField, ImageStop};
pub use laws::{law_example, law_no_prefix, law_version};
pub use reading::read_image;
pub use version::Version;
pub use writing::{write_image, write_with_levels};
