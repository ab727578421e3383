//! Results and condition codes of the operations, computed on bits.
//!
//! Model: the definitions are those of `bk_isa`, in its files of results.
//! Calls: `binary`, `unary`, `mul`, `div`, `ash`, `ashc`.
//! Proved: each call gives exactly the result and the flags that whole-number arithmetic gives.
//! Tested: nothing alone; 23,200 results are compared with an outside model in `bk_vectors`.
//! Neither: nothing.
//! Stands on: `bk_isa`, `bk_space`.
#![tactic(auto)]

mod double;
mod exact;
mod mul_div;
mod shift;
mod single;

pub use double::binary;
pub use mul_div::{div, mul};
pub use shift::{ash, ashc};
pub use single::unary;
