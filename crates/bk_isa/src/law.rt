ghost use Rattle.std.specs.Prelude.{◌≡◌, Some, None, [], codes, find, option_map};
ghost use Rattle.bk_space.specs.Status.{clear, flags_in};
ghost use Rattle.bk_space.specs.declared.reference.Width.TheVariants.{Word, Byte};
ghost use Rattle.bk_isa.specs.Codes.{code_of, primary};
ghost use Rattle.bk_isa.specs.Decode.{decode_of, field_at};
ghost use Rattle.bk_isa.specs.Extended.{mul_of, div_of, ash_of, ashc_of};
ghost use Rattle.bk_isa.specs.Results.{binary_of, unary_of};
ghost use Rattle.bk_isa.specs.Rows.{is_named, meaning_of};
ghost use Rattle.bk_isa.specs.declared.instr.Instr.TheVariants.{Double, Single, Jsr, Sob, Branch, Emt};
ghost use Rattle.bk_isa.specs.declared.mnemonic.Form.TheVariants as form;
ghost use Rattle.bk_isa.specs.declared.operation.Bin.TheVariants.{Mov, Add};
ghost use Rattle.bk_isa.specs.declared.operation.Cond.TheVariants.{Beq, Bcs, Blo};
ghost use Rattle.bk_isa.specs.declared.operation.Un.TheVariants.{Tst, Sbc, Swab};
ghost use Rattle.bk_isa.specs.declared.table.TheConstants.{TABLE};

/// Words as an assembler writes them: a field is two octal digits, mode and register.
pub fn law_example_of_words()
    ensures mov { decode_of 0o012700 ≡ Some (Double Mov Word (field_at 0o27) (field_at 0o00)) }
    ensures movb { decode_of 0o112702 ≡ Some (Double Mov Byte (field_at 0o27) (field_at 0o02)) }
    ensures tst { decode_of 0o005712 ≡ Some (Single Tst Word (field_at 0o12)) }
    ensures jsr { decode_of 0o004700 ≡ Some (Jsr 7 (field_at 0o00)) }
    ensures sob { decode_of 0o077001 ≡ Some (Sob 0 1) }
    ensures beq { decode_of 0o001402 ≡ Some (Branch Beq 2) }
    ensures emt { decode_of 0o104020 ≡ Some (Emt 0o20) }
    ensures undefined { decode_of 0o000007 ≡ None }
    ensures floating { decode_of 0o170000 ≡ None }
    ensures blo { code_of (Branch Blo 3) ≡ 0o103403 }
    ensures bcs { primary (Branch Blo 3) ≡ Branch Bcs 3 }
{}

/// Names are in upper case, and a byte form's ends with B where there is one.
pub fn law_example_of_names()
    ensures bicb { option_map meaning_of (find (is_named (codes "BICB")) TABLE) ≡ Some (record { base = 0o140000; form = form.Double }) }
    ensures mtpd { option_map meaning_of (find (is_named (codes "MTPD")) TABLE) ≡ Some (record { base = 0o106600; form = form.Single }) }
    ensures reset { option_map meaning_of (find (is_named (codes "RESET")) TABLE) ≡ Some (record { base = 0o000005; form = form.Alone }) }
    ensures addb { find (is_named (codes "ADDB")) TABLE ≡ None }
    ensures lower { find (is_named (codes "mov")) TABLE ≡ None }
    ensures empty { find (is_named []) TABLE ≡ None }
{}

/// Results worked by hand, with N, Z, V and C as bits 3 to 0.
pub fn law_example_of_results()
    ensures add { binary_of Add Word 0o000001 0o077777 clear ≡ (0o100000, flags_in 0b1010) }
    ensures sbc { unary_of Sbc Word 0o100000 (flags_in 0b0001) ≡ (0o077777, flags_in 0b0010) }
    ensures swab { unary_of Swab Word 0o100000 clear ≡ (0o000200, flags_in 0b1000) }
    ensures mul { mul_of 0o177777 0o000002 ≡ (0o177777, 0o177776, flags_in 0b1000) }
    ensures div { div_of 0 7 2 ≡ (Some (3, 1), clear) }
    ensures div_by_zero { div_of 0 7 0 ≡ (None, flags_in 0b0011) }
    ensures div_too_large { div_of 1 0 1 ≡ (None, flags_in 0b0010) }
    ensures ash { ash_of 0o100000 0o000040 ≡ (0o177777, flags_in 0b1001) }
    ensures ashc { ashc_of 0o100000 0 0o000040 ≡ (0o177777, 0o177777, flags_in 0b1001) }
{}
