ghost use Rattle.std.specs.Prelude.{◌≡◌, ◌≤◌, ◌<◌, ◌^◌, ◌-◌, ℕ, IsTrue, Some, List, [], ◌∷◌, codes, drop, filter, find, map, option_map, take};
ghost use Rattle.std.specs.Str.{bytes_eq};
ghost use Rattle.bk_isa.specs.declared.table.Row.{Row};
ghost use Rattle.bk_isa.specs.declared.instr.Instr.TheVariants.{Branch};
ghost use Rattle.bk_isa.specs.declared.operation.Cond.TheVariants.{Bhis, Blo};
ghost use Rattle.bk_isa.specs.Codes.{code_of};
ghost use Rattle.bk_isa.specs.Decode.{decode_of};
ghost use Rattle.bk_isa.specs.Names.{name_of};
ghost use Rattle.bk_isa.specs.Rows.{row_name, is_named, meaning_of, covers, is_alias, all_apart, all_differ, first_form};

use crate::mnemonic::{Form, Mnemonic};

/// A row of the table: a name, and the words that are read as it.
#[derive(Clone, Copy)]
pub struct Row {
    /// The name, filled up with blanks.
    pub name: [u8; 6],
    /// How many letters the name has: 1 to 5, or 0 where the words have no name.
    pub letters: u8,
    /// The first word that the row covers, with all fields 0.
    pub base: u16,
    /// How many words the row covers, from `base` on; 0 where the name is another one for the words of the row above.
    pub words: u16,
    pub form: Form,
}

macro_rules! row {
    ($name:literal, $letters:literal, $base:literal, $words:literal, $form:ident) => {
        Row {
            name: *$name,
            letters: $letters,
            base: $base,
            words: $words,
            form: Form::$form,
        }
    };
}

/// The words of the PDP-11/45 that are instructions, each in one row, with their names in the order of their first letters;
/// the rows without a name stand at the end.
pub const TABLE: [Row; 97] = [
    row!(b"ADD   ", 3, 0o060000, 4096, Double),
    row!(b"ASH   ", 3, 0o072000, 512, Eis),
    row!(b"ASHC  ", 4, 0o073000, 512, Eis),
    row!(b"ADC   ", 3, 0o005500, 64, Single),
    row!(b"ADCB  ", 4, 0o105500, 64, Single),
    row!(b"ASR   ", 3, 0o006200, 64, Single),
    row!(b"ASRB  ", 4, 0o106200, 64, Single),
    row!(b"ASL   ", 3, 0o006300, 64, Single),
    row!(b"ASLB  ", 4, 0o106300, 64, Single),
    row!(b"BIT   ", 3, 0o030000, 4096, Double),
    row!(b"BITB  ", 4, 0o130000, 4096, Double),
    row!(b"BIC   ", 3, 0o040000, 4096, Double),
    row!(b"BICB  ", 4, 0o140000, 4096, Double),
    row!(b"BIS   ", 3, 0o050000, 4096, Double),
    row!(b"BISB  ", 4, 0o150000, 4096, Double),
    row!(b"BR    ", 2, 0o000400, 256, Branch),
    row!(b"BNE   ", 3, 0o001000, 256, Branch),
    row!(b"BEQ   ", 3, 0o001400, 256, Branch),
    row!(b"BGE   ", 3, 0o002000, 256, Branch),
    row!(b"BLT   ", 3, 0o002400, 256, Branch),
    row!(b"BGT   ", 3, 0o003000, 256, Branch),
    row!(b"BLE   ", 3, 0o003400, 256, Branch),
    row!(b"BPL   ", 3, 0o100000, 256, Branch),
    row!(b"BMI   ", 3, 0o100400, 256, Branch),
    row!(b"BHI   ", 3, 0o101000, 256, Branch),
    row!(b"BLOS  ", 4, 0o101400, 256, Branch),
    row!(b"BVC   ", 3, 0o102000, 256, Branch),
    row!(b"BVS   ", 3, 0o102400, 256, Branch),
    row!(b"BCC   ", 3, 0o103000, 256, Branch),
    row!(b"BHIS  ", 4, 0o103000, 0, Branch),
    row!(b"BCS   ", 3, 0o103400, 256, Branch),
    row!(b"BLO   ", 3, 0o103400, 0, Branch),
    row!(b"BPT   ", 3, 0o000003, 1, Alone),
    row!(b"CMP   ", 3, 0o020000, 4096, Double),
    row!(b"CMPB  ", 4, 0o120000, 4096, Double),
    row!(b"CLR   ", 3, 0o005000, 64, Single),
    row!(b"CLRB  ", 4, 0o105000, 64, Single),
    row!(b"COM   ", 3, 0o005100, 64, Single),
    row!(b"COMB  ", 4, 0o105100, 64, Single),
    row!(b"CLC   ", 3, 0o000241, 1, Alone),
    row!(b"CLV   ", 3, 0o000242, 1, Alone),
    row!(b"CLZ   ", 3, 0o000244, 1, Alone),
    row!(b"CLN   ", 3, 0o000250, 1, Alone),
    row!(b"CCC   ", 3, 0o000257, 1, Alone),
    row!(b"DIV   ", 3, 0o071000, 512, Eis),
    row!(b"DEC   ", 3, 0o005300, 64, Single),
    row!(b"DECB  ", 4, 0o105300, 64, Single),
    row!(b"EMT   ", 3, 0o104000, 256, Number),
    row!(b"HALT  ", 4, 0o000000, 1, Alone),
    row!(b"INC   ", 3, 0o005200, 64, Single),
    row!(b"INCB  ", 4, 0o105200, 64, Single),
    row!(b"IOT   ", 3, 0o000004, 1, Alone),
    row!(b"JSR   ", 3, 0o004000, 512, Jsr),
    row!(b"JMP   ", 3, 0o000100, 64, Single),
    row!(b"MOV   ", 3, 0o010000, 4096, Double),
    row!(b"MOVB  ", 4, 0o110000, 4096, Double),
    row!(b"MUL   ", 3, 0o070000, 512, Eis),
    row!(b"MFPI  ", 4, 0o006500, 64, Single),
    row!(b"MTPI  ", 4, 0o006600, 64, Single),
    row!(b"MFPD  ", 4, 0o106500, 64, Single),
    row!(b"MTPD  ", 4, 0o106600, 64, Single),
    row!(b"MARK  ", 4, 0o006400, 64, Mark),
    row!(b"NEG   ", 3, 0o005400, 64, Single),
    row!(b"NEGB  ", 4, 0o105400, 64, Single),
    row!(b"NOP   ", 3, 0o000240, 1, Alone),
    row!(b"ROR   ", 3, 0o006000, 64, Single),
    row!(b"RORB  ", 4, 0o106000, 64, Single),
    row!(b"ROL   ", 3, 0o006100, 64, Single),
    row!(b"ROLB  ", 4, 0o106100, 64, Single),
    row!(b"RTS   ", 3, 0o000200, 8, Rts),
    row!(b"RTI   ", 3, 0o000002, 1, Alone),
    row!(b"RESET ", 5, 0o000005, 1, Alone),
    row!(b"RTT   ", 3, 0o000006, 1, Alone),
    row!(b"SUB   ", 3, 0o160000, 4096, Double),
    row!(b"SBC   ", 3, 0o005600, 64, Single),
    row!(b"SBCB  ", 4, 0o105600, 64, Single),
    row!(b"SWAB  ", 4, 0o000300, 64, Single),
    row!(b"SXT   ", 3, 0o006700, 64, Single),
    row!(b"SOB   ", 3, 0o077000, 512, Sob),
    row!(b"SPL   ", 3, 0o000230, 8, Spl),
    row!(b"SEC   ", 3, 0o000261, 1, Alone),
    row!(b"SEV   ", 3, 0o000262, 1, Alone),
    row!(b"SEZ   ", 3, 0o000264, 1, Alone),
    row!(b"SEN   ", 3, 0o000270, 1, Alone),
    row!(b"SCC   ", 3, 0o000277, 1, Alone),
    row!(b"TST   ", 3, 0o005700, 64, Single),
    row!(b"TSTB  ", 4, 0o105700, 64, Single),
    row!(b"TRAP  ", 4, 0o104400, 256, Number),
    row!(b"WAIT  ", 4, 0o000001, 1, Alone),
    row!(b"XOR   ", 3, 0o074000, 512, Xor),
    row!(b"      ", 0, 0o000243, 1, Alone),
    row!(b"      ", 0, 0o000245, 3, Alone),
    row!(b"      ", 0, 0o000251, 6, Alone),
    row!(b"      ", 0, 0o000260, 1, Alone),
    row!(b"      ", 0, 0o000263, 1, Alone),
    row!(b"      ", 0, 0o000265, 3, Alone),
    row!(b"      ", 0, 0o000271, 6, Alone),
];

/// Whether a row has this name.
fn has_name(row: &Row, name: &[u8]) -> bool
    ensures { result ≡ is_named name.now row.now }
{
    match row.name.get(..usize::from(row.letters)) {
        Some(text) => row.letters > 0 && is_same(text, name),
        None => row.name.as_slice() == name,
    }
}

/// Whether two names are the same. Their second letters are asked first, since the rows are searched by the first ones.
fn is_same(text: &[u8], name: &[u8]) -> bool
    ensures { result ≡ bytes_eq text.now name.now }
{
    match (text, name) {
        ([_, c, ..], [_, d, ..]) => *c == *d && text.len() == name.len() && text == name,
        _ => text == name,
    }
}

/// The row with this name, in a part of the table.
fn row_named(rows: &[Row], name: &[u8]) -> Option<Row>
    ensures { result ≡ find (is_named name.now) rows.now }
{
    for row in rows {
        if has_name(row, name) {
            return Some(*row);
        }
    }
    None
}

/// Where the rows with names of this first letter begin in the table, and where they end.
fn places_by(first: u8) -> (usize, usize)
    ensures order { result.0 ≤ result.1 }
    ensures inside { result.1 ≤ 97 }
    ensures rows { (rest : List ℕ) → find (is_named (first ∷ rest)) TABLE ≡ find (is_named (first ∷ rest)) (take (result.1 - result.0) (drop result.0 TABLE)) }
{
    match first {
        b'A' => (0, 9),
        b'B' => (9, 33),
        b'C' => (33, 44),
        b'D' => (44, 47),
        b'E' => (47, 48),
        b'H' => (48, 49),
        b'I' => (49, 52),
        b'J' => (52, 54),
        b'M' => (54, 62),
        b'N' => (62, 65),
        b'R' => (65, 73),
        b'S' => (73, 85),
        b'T' => (85, 88),
        b'W' => (88, 89),
        b'X' => (89, 90),
        _ => (0, 0),
    }
}

/// Where the rows with names of this name's first letter begin in the table, and where they end.
fn places_of(name: &[u8]) -> (usize, usize)
    ensures order { result.0 ≤ result.1 }
    ensures inside { result.1 ≤ 97 }
    ensures rows { find (is_named name.now) TABLE ≡ find (is_named name.now) (take (result.1 - result.0) (drop result.0 TABLE)) }
{
    match name {
        [first, ..] => places_by(*first),
        [] => (0, 0),
    }
}

/// The row with this name.
fn row_of(name: &[u8]) -> Option<Row>
    ensures { result ≡ find (is_named name.now) TABLE }
{
    let (from, to) = places_of(name);
    row_named(&TABLE[from..to], name)
}

/// What a name stands for: None exactly where it is no instruction's name. Names are in upper case.
pub fn by_name(name: &[u8]) -> Option<Mnemonic>
    ensures value { result ≡ option_map meaning_of (find (is_named name.now) TABLE) }
{
    let row = row_of(name)?;
    Some(Mnemonic {
        base: row.base,
        form: row.form,
    })
}

/// No two rows cover one word; the row that covers a word has the name of the word's instruction, and none covers a word
/// that is none; and each row's form is that of the instruction of its first word.
pub fn law_rows()
    ensures apart { IsTrue (all_apart TABLE) }
    ensures names { (word : ℕ) → word < 2 ^ 16 → option_map name_of (decode_of word) ≡ option_map row_name (find (covers word) TABLE) }
    ensures forms { map first_form TABLE ≡ map (λ row. Some row.form) TABLE }
{}

/// No two rows have one name. BHIS and BLO alone are other names for words of a row above, and stand for their branches.
pub fn law_names()
    ensures differ { IsTrue (all_differ TABLE) }
    ensures aliases { map row_name (filter is_alias TABLE) ≡ codes "BHIS" ∷ codes "BLO" ∷ [] }
    ensures bhis { option_map (λ row. row.base) (find (is_named (codes "BHIS")) TABLE) ≡ Some (code_of (Branch Bhis 0)) }
    ensures blo { option_map (λ row. row.base) (find (is_named (codes "BLO")) TABLE) ≡ Some (code_of (Branch Blo 0)) }
{}
