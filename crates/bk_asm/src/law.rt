// What an assembled text is, in sizes, addresses and values; and statements worked by hand.

ghost use Rattle.std.specs.Prelude.{◌≡◌, ℕ, List, [], ◌∷◌, true, false, codes as text, map, Ok, Err};
ghost use Rattle.bk_expr.specs.Tree as tree;
ghost use Rattle.bk_expr.specs.declared.tree.ExprOp.TheVariants.{Div};
ghost use Rattle.bk_asm_text.specs.Fault.{fault_at};
ghost use Rattle.bk_asm_text.specs.Plain as plain;
ghost use Rattle.bk_asm_text.specs.Plain.{Local};
ghost use Rattle.bk_asm_text.specs.declared.fault.AsmKind.TheVariants as kind;
ghost use Rattle.bk_asm.specs.Assembled.{assembled};
ghost use Rattle.bk_asm.specs.Codes.{bytes_at, is_byte, is_in_back, is_in_branch};
ghost use Rattle.bk_asm.specs.Example.{from_zero, label_a, on};
ghost use Rattle.bk_asm.specs.Law.{IsAssembly};
ghost use Rattle.bk_asm.specs.Pieces as pieces;
ghost use Rattle.bk_asm.specs.declared.program.Program.{Program};

/// An assembled text has places and values: each statement's address is the origin and the sizes of those before it, each label
/// stands for its statement's address, each assigned name for what its expression comes to by the values of all names, and the
/// words are those of the statements' bytes, each by these values.
pub fn law_assembled()
    ensures { (text : List ℕ) (origin : ℕ) (program : Program) → assembled text origin ≡ Ok program → IsAssembly text origin program }
{}

/// Pieces, sizes and ranges worked by hand.
pub fn law_example_of_pieces()
    ensures deferred { pieces.pieces_of (plain.Single 0o005000 (plain.IndexZero 1)) ≡ pieces.Fixed 0o005071 ∷ pieces.Fixed 0 ∷ [] }
    ensures immediate { pieces.pieces_of (plain.Double 0o010000 (plain.Immediate tree.Here) (plain.Reg 0))
        ≡ pieces.Fixed 0o012700 ∷ pieces.Value tree.Here ∷ [] }
    ensures six { pieces.form_size (plain.Double 0o010000 (plain.Relative tree.Here) (plain.Absolute tree.Here)) ≡ 6 }
    ensures string { pieces.form_size (plain.Ascii (1 ∷ 2 ∷ []) true) ≡ 3 }
    ensures to_itself { bytes_at 0 (pieces.Branch 0o000400 tree.Here) 0 ≡ 0o377 ∷ 0o001 ∷ [] }
    ensures distance { bytes_at 2 (pieces.Distance tree.Here) 0 ≡ 0o374 ∷ 0o377 ∷ [] }
    ensures forward { map is_in_branch (254 ∷ 256 ∷ []) ≡ true ∷ false ∷ [] }
    ensures backward { map is_in_branch (65280 ∷ 65278 ∷ []) ≡ true ∷ false ∷ [] }
    ensures repeated { map is_in_back (126 ∷ 128 ∷ []) ≡ true ∷ false ∷ [] }
    ensures low { map is_byte (0o377 ∷ 0o400 ∷ []) ≡ true ∷ false ∷ [] }
    ensures high { map is_byte (0o177600 ∷ 0o177577 ∷ []) ≡ true ∷ false ∷ [] }
{}

/// Statements worked by hand: `A: CLR @(R1)` and `BR A`; and two faults of one line, of two lines, and of two ranges.
#[tactic(auto, unfolding(crate::specs::Faults::settle, crate::specs::Codes::coded, crate::specs::Codes::coded_at))]
pub fn law_example_of_statements()
    ensures words { from_zero (on 1 label_a (plain.Single 0o005000 (plain.IndexZero 1))
        ∷ on 2 [] (plain.Branch 0o000400 (tree.Name (text "A"))) ∷ [])
        ≡ Ok (0o071 ∷ 0o012 ∷ 0 ∷ 0 ∷ 0o375 ∷ 0o001 ∷ []) }
    ensures doubled_before_odd { from_zero (on 1 label_a (plain.ByteList (tree.Here ∷ [])) ∷ on 2 label_a (plain.Alone 0o000240) ∷ [])
        ≡ Err (fault_at 2 kind.Doubled) }
    ensures undefined_before_divide { from_zero (on 1 [] (plain.WordList (tree.Binary Div tree.Here tree.Here ∷ tree.Name (text "A") ∷ [])) ∷ [])
        ≡ Err (fault_at 1 kind.Undefined) }
    ensures assigned_before_used { from_zero (on 1 [] (plain.Branch 0o000400 (tree.Name (text "A")))
        ∷ on 2 [] (plain.Assign (text "B") (tree.Name (text "A"))) ∷ [])
        ≡ Err (fault_at 2 kind.Undefined) }
    ensures other_range { from_zero (on 1 (Local 1 ∷ []) plain.Nothing ∷ on 2 label_a (plain.WordList (tree.Local 1 ∷ [])) ∷ [])
        ≡ Err (fault_at 2 kind.Undefined) }
{}
