ghost use Rattle.std.specs.Prelude.{◌≡◌, ℕ, List, None, Some, [], ◌∷◌, codes};
ghost use Rattle.bk_expr.specs.declared.tree.ExprOp.TheVariants.{Add, Sub, Mul};
ghost use Rattle.bk_expr.specs.declared.worked.Worked.TheVariants.{Value, Undefined, Divide};
ghost use Rattle.bk_expr.specs.Example.{comes_to};
ghost use Rattle.bk_expr.specs.Expression.{operator_at, term_in, ends_or, term_at, more_at, joined_at, expression_at};
ghost use Rattle.bk_expr.specs.Names.{register_at};
ghost use Rattle.bk_expr.specs.Text.{past_blanks};
ghost use Rattle.bk_expr.specs.Tree.{Expression, Number, Name, Local, Here, Negate, Binary};

/// The grammar without the bound on how many bytes are read: a term by its first byte, and what follows a term.
#[tactic(auto, using(crate::proofs::Enough::term_opens, crate::proofs::Enough::more_opens))]
pub fn law_grammar()
    ensures term { (text : List ℕ) → term_at text ≡ term_in term_at expression_at (past_blanks text) }
    ensures more { (left : Expression) (text : List ℕ) → more_at left text ≡ ends_or (left, text) (joined_at left) (operator_at text) }
{}

/// Texts with an expression at their front, and what follows it.
#[tactic(auto, unfolding(crate::specs::Expression::term_of_run, crate::specs::Names::number_of, crate::specs::Names::local_of, crate::specs::Names::is_name, crate::specs::Names::mnemonic_of))]
pub fn law_example_of_text()
    ensures left_to_right { expression_at (codes "1+2*3") ≡ Some (Binary Mul (Binary Add (Number 1) (Number 2)) (Number 3), []) }
    ensures brackets { expression_at (codes " < 1 - a.$ >,") ≡ Some (Binary Sub (Number 1) (Name (codes "A.$")), codes ",") }
    ensures signs { expression_at (codes "+-1") ≡ Some (Negate (Number 1), []) }
    ensures character { expression_at (codes "'a") ≡ Some (Number 0o141, []) }
    ensures semicolon { expression_at (codes "';") ≡ Some (Number 0o73, []) }
    ensures decimal { expression_at (codes "010.") ≡ Some (Number 0o12, []) }
    ensures local { expression_at (codes "01$+.") ≡ Some (Binary Add (Local 1) Here, []) }
    ensures after { expression_at (codes "2 (R1)") ≡ Some (Number 2, codes " (R1)") }
{}

/// Texts with no expression at their front.
#[tactic(auto, unfolding(crate::specs::Expression::term_of_run, crate::specs::Names::number_of, crate::specs::Names::local_of, crate::specs::Names::is_name, crate::specs::Names::mnemonic_of))]
pub fn law_example_of_none()
    ensures empty { expression_at [] ≡ None }
    ensures operator { expression_at (codes "1+") ≡ None }
    ensures bracket { expression_at (codes "<1") ≡ None }
    ensures percent { expression_at (codes "% 3") ≡ None }
    ensures register { expression_at (codes "1+sp") ≡ None }
    ensures instruction { expression_at (codes "MOV") ≡ None }
    ensures eight { expression_at (codes "8") ≡ None }
    ensures large { expression_at (codes "65536.") ≡ None }
    ensures label { expression_at (codes "0$") ≡ None }
    ensures seven { expression_at (codes "ABCDEFG") ≡ None }
{}

/// What expressions come to where A is 5, 1$ is octal 100 and `.` is octal 1000.
#[tactic(auto, unfolding(crate::specs::Expression::term_of_run, crate::specs::Names::number_of, crate::specs::Names::local_of, crate::specs::Names::is_name, crate::specs::Names::mnemonic_of))]
pub fn law_example_of_values()
    ensures left_to_right { comes_to (codes "1+2*3") ≡ Some (Value 0o11) }
    ensures brackets { comes_to (codes "1+<2*3>") ≡ Some (Value 0o7) }
    ensures truncated { comes_to (codes "7/2") ≡ Some (Value 0o3) }
    ensures negative { comes_to (codes "-1") ≡ Some (Value 0o177777) }
    // A quotient is unsigned.
    ensures unsigned { comes_to (codes "-1/2") ≡ Some (Value 0o77777) }
    ensures difference { comes_to (codes "2-3") ≡ Some (Value 0o177777) }
    ensures bits { comes_to (codes "A&6!2") ≡ Some (Value 0o6) }
    ensures here { comes_to (codes ".+1$") ≡ Some (Value 0o1100) }
    ensures divide { comes_to (codes "1/0") ≡ Some Divide }
    // Undefined goes before divide.
    ensures undefined { comes_to (codes "1/0+B") ≡ Some Undefined }
{}

/// Registers at the front of a text.
pub fn law_example_of_registers()
    ensures word { register_at (codes "r5,") ≡ Some (5, codes ",") }
    ensures stack { register_at (codes "SP") ≡ Some (6, []) }
    ensures counter { register_at (codes " pc)") ≡ Some (7, codes ")") }
    ensures percent { register_at (codes "% 3") ≡ Some (3, []) }
    ensures zero { register_at (codes "%03") ≡ None }
    ensures point { register_at (codes "%3.") ≡ None }
{}
