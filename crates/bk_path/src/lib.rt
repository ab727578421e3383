//! Paths, by which objects are named, and the two words that a path is packed in.
//!
//! Model: `specs/Paths.antt` (`Path`, `path_cmp`, `parent`, `is_inferior`, `unpack`, `pack`), `specs/Orders.antt` (the order of paths is total), `specs/Keys.antt` (`key_of`, `past_of`: one number a path, and the bound of its inferiors), `specs/Packed.antt` and `specs/Spelt.antt` (a path as the words and entries of the code).
//! Calls: `Path::root`, `child`, `parent`, `above`, `is_root`, `depth`, `entry`, `is_inferior`, `key`, `past`, `pack`, `unpack`; `law_paths`, `law_keys`, `law_packing`, `law_example`.
//! Proved: each call is its definition on lists; packing and unpacking are inverse, and nothing else packs; a path is inferior to another exactly where the other's entries are its front; paths order as their numbers do, and a path's inferiors are those whose numbers stand between its own and its bound; examples of packing, order and inferiors.
//! Tested: that the calls work together on octal words.
//! Neither: nothing.
//! Stands on: nothing.
#![tactic(auto)]

mod path;

pub use path::{Path, law_example, law_keys, law_packing, law_paths};
