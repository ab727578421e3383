//! The store: the objects by their paths, what each grants, who holds what, where segments stand, what waits in queues.
//!
//! Model: `specs/Stored.antt` (all words of the following, for those that cite them), `specs/Entries.antt` (`Stored`, `objects_of`), `specs/Holding.antt` (`holds`, `with_held`), `specs/Changes.antt` (`with_given`, `with_rescinded`, `without_group`, `IsCreated`), `specs/Cells.antt` (`cell_of`, `Fits`), `specs/Rises.antt` (`may_rise`), `specs/Words.antt` (`word_at`, `written`), `specs/Queues.antt` (`with_message`, `with_typed`), `specs/Joined.antt` (`HaveKinds`, `AreExtentsApart`; the tables of the code taken together), `specs/Stands.antt` (`StandsFor`), `specs/Example.antt` (a mailbox and words that are told by hand), `specs/Codes.antt` (that values of a store are alike or not).
//! Calls: `Store::reserve`, `create`, `delete_group`, `facts`, `held`, `hold`, `release`, `give`, `rescind`, `level`, `may_rise`, `cell`, `extent`, `shown`, `word`, `write_word`, `put_message`, `take_message`, `type_byte`, `take_byte`; `law_levels`, `law_contents`, `law_example`.
//! Proved: each call answers from, or changes, exactly its part of a map from paths to objects with their contents and of a set of subject, path and mode; no call loses a word of another segment, and the words of the kernel's blocks stay.
//! Tested: in `bk_suite`, that a store with ample memory works at its limits, through its calls one after another, and as a plain model does over 10,000 calls.
//! Neither: nothing.
//! Stands on: `bitflags`, `bk_access`, `bk_base`, `bk_core`, `bk_frames`, `bk_level`, `bk_object`, `bk_path`, `bk_queue`, `bk_quota`, `bk_state`, `bk_tree`.
#![tactic(auto)]

mod laws;
mod queues;
mod store;

pub use laws::law_example;
pub use store::Store;
