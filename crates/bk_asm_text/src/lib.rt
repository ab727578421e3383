//! Assembly text: what each of its lines says, as a statement.
//!
//! Model: `specs/Statements.antt` (`statements_of`: the statements of a text, or its first fault; `statement_of`, `lines_of`),
//! `specs/Before.antt` (`before_fault`), `specs/First.antt` (`IsFirstOutside`), `specs/Operands.antt` (`operand_at`, by the rows of addressing), `specs/Forms.antt`
//! (`fields_at`, by the form of an instruction), `specs/Directives.antt` (`argument_at`), `specs/Parts.antt` (`is_end`, `all_of`),
//! `specs/Plain.antt` (statements as plain values), `specs/Flat.antt` (`plain_statements`, `plain_rest`, `plain_statement`: what
//! those say that lie in memory), `specs/Fault.antt` (the word for each fault); for the reader `specs/Addressing.antt` (operands by
//! the part that they begin with) and `specs/Read.antt` (what reading a part adds to the expressions of its statement).
//! Calls: `split`, `split_front`; `Statements::all`, `Statements::len`, `Rest::next`; `AsmKind::text`. (`law_first_fault` and the
//! `law_example_of_..` are empty functions, for their contracts.)
//! Proved: a text is split exactly into what its lines say, one statement a line, and refused exactly at its first line outside
//! the grammar; they are taken one after another, each as its line says it; an operand is what the first row of addressing says
//! that reads it whole.
//! Tested: in `bk_suite`, that a text with every form is read at all, and the line of the fault of texts with several.
//! Neither: how much memory is taken.
//! Stands on: `bk_base`, `bk_expr`, `bk_isa`.
#![tactic(auto)]

mod directive;
mod fault;
mod form;
mod law;
mod line;
mod operand;
mod part;
mod splitting;
mod statement;
mod statements;
mod value;

pub use bk_expr::{Expr, ExprOp};
pub use fault::{AsmFault, AsmKind, AsmStop};
pub use law::{
    law_example_of_lines, law_example_of_operands, law_example_of_refusals, law_example_of_texts,
};
pub use operand::Operand;
pub use splitting::{Front, law_first_fault, split, split_front};
pub use statement::{Body, Label, Statement};
pub use statements::{Rest, Statements};
