// Texts worked by hand, as the definitions read them.
#![tactic(auto, unfolding(crate::specs::Statements::statements_of, crate::specs::Statements::statements_at, crate::specs::Statements::lines_of, crate::specs::Statements::statement_of, crate::specs::Statements::body_of, crate::specs::Statements::body_at, crate::specs::Statements::assignment_at, crate::specs::Statements::label_at, crate::specs::Statements::label_of_run, crate::specs::Directives::argument_at, crate::specs::Directives::string_at, crate::specs::Directives::expressions_at, crate::specs::Directives::next_expression_at, crate::specs::Directives::directive_of, crate::specs::Forms::fields_at, crate::specs::Forms::source_at, crate::specs::Forms::first_register_at, crate::specs::Operands::operand_at, crate::specs::Parts::all_of, crate::specs::Parts::is_end, crate::specs::Parts::is_operand_end, bk_expr::specs::Expression::term_of_run, bk_expr::specs::Names::mnemonic_of, bk_expr::specs::Names::is_name, bk_expr::specs::Names::number_of, bk_expr::specs::Names::local_of))]

ghost use Rattle.std.specs.Prelude.{◌≡◌, [], ◌∷◌, true, false, codes, map, Some, None, Ok, Err};
ghost use Rattle.bk_expr.specs.Tree as tree;
ghost use Rattle.bk_expr.specs.declared.tree.ExprOp.TheVariants.{Add, Div};
ghost use Rattle.bk_asm_text.specs.Fault.{fault_at};
ghost use Rattle.bk_asm_text.specs.Operands.{operand_at};
ghost use Rattle.bk_asm_text.specs.Plain as plain;
ghost use Rattle.bk_asm_text.specs.Statements.{lines_of, says, statements_of};
ghost use Rattle.bk_asm_text.specs.declared.fault.AsmKind.TheVariants as kind;
ghost use Rattle.bk_asm_text.specs.Plain.{Name, Local};

/// Operands worked by hand: one for each row of addressing, and texts that are none.
pub fn law_example_of_operands()
    ensures register { operand_at (codes "R0") ≡ Some (plain.Reg 0, []) }
    ensures bracket { operand_at (codes "(sp)") ≡ Some (plain.Deferred 6, []) }
    ensures at { operand_at (codes "@PC,") ≡ Some (plain.Deferred 7, codes ",") }
    ensures inc { operand_at (codes "(R1)+") ≡ Some (plain.Inc 1, []) }
    ensures inc_deferred { operand_at (codes "@(R2)+") ≡ Some (plain.IncDeferred 2, []) }
    ensures dec { operand_at (codes " - ( % 3 )") ≡ Some (plain.Dec 3, []) }
    ensures dec_deferred { operand_at (codes "@-(R4)") ≡ Some (plain.DecDeferred 4, []) }
    ensures index { operand_at (codes "2(R5)") ≡ Some (plain.Index 5 (tree.Number 2), []) }
    ensures index_deferred { operand_at (codes "@a(R1)") ≡ Some (plain.IndexDeferred 1 (tree.Name (codes "A")), []) }
    ensures index_zero { operand_at (codes "@(R1)") ≡ Some (plain.IndexZero 1, []) }
    ensures immediate { operand_at (codes "#-1") ≡ Some (plain.Immediate (tree.Negate (tree.Number 1)), []) }
    ensures absolute { operand_at (codes "@#100") ≡ Some (plain.Absolute (tree.Number 64), []) }
    ensures relative { operand_at (codes "A+2;") ≡ Some (plain.Relative (tree.Binary Add (tree.Name (codes "A")) (tree.Number 2)), codes ";") }
    ensures relative_deferred { operand_at (codes "@1$") ≡ Some (plain.RelativeDeferred (tree.Local 1), []) }

    // % is a part of its own, and one octal digit follows it; a register is no term, and no expression begins with (.
    ensures two_digits { operand_at (codes "%03") ≡ None }
    ensures point { operand_at (codes "%3.") ≡ None }
    ensures open { operand_at (codes "(R0") ≡ None }
    ensures sum { operand_at (codes "R0+1") ≡ None }
    ensures base { operand_at (codes "R0(R1)") ≡ None }
    ensures number { operand_at (codes "(5)") ≡ None }
    ensures both { operand_at (codes "-(R0)+") ≡ None }
    ensures twice { operand_at (codes "@@R0") ≡ None }
    ensures empty { operand_at [] ≡ None }
{}

/// Lines worked by hand: labels, an assignment, one for each form of instruction, one for each directive.
pub fn law_example_of_lines()
    ensures nothing { says [] ≡ Some ([], plain.Nothing) }
    ensures comment { says (codes " ; MOV") ≡ Some ([], plain.Nothing) }
    ensures labels { says (codes "A: 01$ :;") ≡ Some (Name (codes "A") ∷ Local 1 ∷ [], plain.Nothing) }
    ensures assign { says (codes "a = 1/2") ≡ Some ([], plain.Assign (codes "A") (tree.Binary Div (tree.Number 1) (tree.Number 2))) }
    ensures word_assigned { says (codes ".WORD=5") ≡ Some ([], plain.Assign (codes ".WORD") (tree.Number 5)) }
    ensures even_label { says (codes ".EVEN:") ≡ Some (Name (codes ".EVEN") ∷ [], plain.Nothing) }
    ensures double { says (codes "A:MOV R5 , R1;b") ≡ Some (Name (codes "A") ∷ [], plain.Double 0o010000 (plain.Reg 5) (plain.Reg 1)) }
    ensures eis { says (codes "ash #2,R0") ≡ Some ([], plain.Eis 0o072000 (plain.Immediate (tree.Number 2)) 0) }
    ensures xor { says (codes "XOR R0,(R1)") ≡ Some ([], plain.Xor 0 (plain.Deferred 1)) }
    ensures jsr { says (codes "JSR PC,@A") ≡ Some ([], plain.Jsr 7 (plain.RelativeDeferred (tree.Name (codes "A")))) }
    ensures single { says (codes "CLR@#10") ≡ Some ([], plain.Single 0o005000 (plain.Absolute (tree.Number 8))) }
    ensures rts { says (codes "RTS % 7") ≡ Some ([], plain.Rts 7) }
    ensures sob { says (codes "SOB R1,1$") ≡ Some ([], plain.Sob 1 (tree.Local 1)) }
    ensures branch { says (codes "BR .") ≡ Some ([], plain.Branch 0o000400 tree.Here) }
    ensures mark { says (codes "MARK 3") ≡ Some ([], plain.Mark (tree.Number 3)) }
    ensures spl { says (codes "SPL 7") ≡ Some ([], plain.Spl (tree.Number 7)) }
    ensures emt { says (codes "EMT 20") ≡ Some ([], plain.Number 0o104000 (Some (tree.Number 16))) }
    ensures trap { says (codes "TRAP;") ≡ Some ([], plain.Number 0o104400 None) }
    ensures alone { says (codes "NOP") ≡ Some ([], plain.Alone 0o000240) }
    ensures words { says (codes ".WORD 1,'a,'; ,A") ≡ Some ([], plain.WordList (tree.Number 1 ∷ tree.Number 97 ∷ tree.Number 59 ∷ tree.Name (codes "A") ∷ [])) }
    ensures bytes { says (codes ".byte 10.") ≡ Some ([], plain.ByteList (tree.Number 10 ∷ [])) }
    ensures ascii { says (codes ".ASCII /a;b/;c") ≡ Some ([], plain.Ascii (codes "a;b") false) }
    ensures asciz { says (codes ".ASCIZ xAx") ≡ Some ([], plain.Ascii (codes "A") true) }
    ensures empty { says (codes ".ASCII ''") ≡ Some ([], plain.Ascii [] false) }
    ensures blkw { says (codes ".BLKW 4") ≡ Some ([], plain.Blkw (tree.Number 4)) }
    ensures even { says (codes ".EVEN") ≡ Some ([], plain.Even) }
{}

/// Lines outside the grammar, worked by hand.
pub fn law_example_of_refusals()
    ensures byte { says (59 ∷ 127 ∷ []) ≡ None }
    ensures register_label { says (codes "R0:") ≡ None }
    ensures instruction_assigned { says (codes "MOV=5") ≡ None }
    ensures no_label { says (codes "0$:") ≡ None }
    ensures great_label { says (codes "65536$:") ≡ None }
    ensures long_name { says (codes "ABCDEFG=1") ≡ None }
    ensures label_behind { says (codes "NOP A:") ≡ None }
    ensures one_operand { says (codes "MOV R0") ≡ None }
    ensures three_operands { says (codes "MOV R0,R1,R2") ≡ None }
    ensures operand_of_alone { says (codes "NOP 1") ≡ None }
    ensures no_branch { says (codes "BR") ≡ None }
    ensures unknown { says (codes "FOO R0") ≡ None }
    ensures open_string { says (codes ".ASCII /ab") ≡ None }
    ensures other_case { says (codes ".ASCII xabX") ≡ None }
    ensures no_delimiter { says (codes ".ASCII <ab<") ≡ None }
    ensures last_comma { says (codes ".WORD 1,") ≡ None }
    ensures no_words { says (codes ".WORD") ≡ None }
    ensures end { says (codes ".END") ≡ None }
{}

/// The lines of texts worked by hand, and the first line outside the grammar.
pub fn law_example_of_texts()
    ensures none { lines_of [] ≡ [] }
    ensures one { lines_of (codes "A") ≡ codes "A" ∷ [] }
    ensures whole { lines_of (codes "A\n\n") ≡ codes "A" ∷ [] ∷ [] }
    ensures numbered { statements_of (codes "\nNOP") ≡ Ok (record { line = 1; labels = []; body = plain.Nothing } ∷ record { line = 2; labels = []; body = plain.Alone 0o000240 } ∷ []) }
    ensures first { statements_of (codes "NOP\n:\nR0") ≡ Err (fault_at 2 kind.Form) }
{}
