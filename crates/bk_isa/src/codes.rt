ghost use Rattle.std.specs.Prelude.{◌≡◌, ◌≢◌, ◌+◌, ◌*◌, ◌/◌, ◌%◌, ◌<◌, ◌≤◌, Some, IfSome, IfNone, option_map};
ghost use Rattle.std.specs.Option.{option_or};
ghost use Rattle.bk_isa.specs.declared.instr.Instr.{Instr};
ghost use Rattle.bk_isa.specs.Codes.{number_of, IsField, width_bit, double_code, single_code, eis_code, branch_code};
ghost use Rattle.bk_isa.specs.Codes.{space_bit as space_bit_of, code_of, HasDouble, HasSingle, IsListed, primary};
ghost use Rattle.bk_isa.specs.Decode.{field_at, look_up, doubles, eis, branches, singles, others, alone, codes_at};
ghost use Rattle.bk_isa.specs.Decode.{rest_at, register_at, number_at, single_at, parts_of, decode_of};

use crate::instr::Instr;
use crate::operation::{Bin, Cond, EisOp, Un};
use bk_space::{Field, Space, Width};

// Each table of codes stands once: `read` takes it from a code to its value, `spell` from a value to its code.
macro_rules! read {
    ($code:expr, $($number:literal => $value:expr,)*) => {
        match $code {
            $($number => Some($value),)*
            _ => None,
        }
    };
}

macro_rules! spell {
    ($value:expr, $($number:literal => $pattern:pat,)*) => {
        match $value {
            $($pattern => $number,)*
            _ => unreachable!(),
        }
    };
}

macro_rules! spell_all {
    ($value:expr, $($number:literal => $pattern:pat,)*) => {
        match $value {
            $($pattern => $number,)*
        }
    };
}

macro_rules! doubles {
    ($way:ident, $of:expr) => {
        $way!($of,
            0o01 => (Bin::Mov, Width::Word),
            0o02 => (Bin::Cmp, Width::Word),
            0o03 => (Bin::Bit, Width::Word),
            0o04 => (Bin::Bic, Width::Word),
            0o05 => (Bin::Bis, Width::Word),
            0o06 => (Bin::Add, Width::Word),
            0o11 => (Bin::Mov, Width::Byte),
            0o12 => (Bin::Cmp, Width::Byte),
            0o13 => (Bin::Bit, Width::Byte),
            0o14 => (Bin::Bic, Width::Byte),
            0o15 => (Bin::Bis, Width::Byte),
            0o16 => (Bin::Sub, Width::Word),
        )
    };
}

macro_rules! eis {
    ($way:ident, $of:expr) => {
        $way!($of,
            0o070 => EisOp::Mul,
            0o071 => EisOp::Div,
            0o072 => EisOp::Ash,
            0o073 => EisOp::Ashc,
        )
    };
}

macro_rules! branches {
    ($way:ident, $of:expr) => {
        $way!($of,
            0o0004 => Cond::Br,
            0o0010 => Cond::Bne,
            0o0014 => Cond::Beq,
            0o0020 => Cond::Bge,
            0o0024 => Cond::Blt,
            0o0030 => Cond::Bgt,
            0o0034 => Cond::Ble,
            0o1000 => Cond::Bpl,
            0o1004 => Cond::Bmi,
            0o1010 => Cond::Bhi,
            0o1014 => Cond::Blos,
            0o1020 => Cond::Bvc,
            0o1024 => Cond::Bvs,
            0o1030 => Cond::Bcc,
            0o1034 => Cond::Bcs,
        )
    };
}

macro_rules! singles {
    ($way:ident, $of:expr) => {
        $way!($of,
            0o0003 => (Un::Swab, Width::Word),
            0o0050 => (Un::Clr, Width::Word),
            0o0051 => (Un::Com, Width::Word),
            0o0052 => (Un::Inc, Width::Word),
            0o0053 => (Un::Dec, Width::Word),
            0o0054 => (Un::Neg, Width::Word),
            0o0055 => (Un::Adc, Width::Word),
            0o0056 => (Un::Sbc, Width::Word),
            0o0057 => (Un::Tst, Width::Word),
            0o0060 => (Un::Ror, Width::Word),
            0o0061 => (Un::Rol, Width::Word),
            0o0062 => (Un::Asr, Width::Word),
            0o0063 => (Un::Asl, Width::Word),
            0o0067 => (Un::Sxt, Width::Word),
            0o1050 => (Un::Clr, Width::Byte),
            0o1051 => (Un::Com, Width::Byte),
            0o1052 => (Un::Inc, Width::Byte),
            0o1053 => (Un::Dec, Width::Byte),
            0o1054 => (Un::Neg, Width::Byte),
            0o1055 => (Un::Adc, Width::Byte),
            0o1056 => (Un::Sbc, Width::Byte),
            0o1057 => (Un::Tst, Width::Byte),
            0o1060 => (Un::Ror, Width::Byte),
            0o1061 => (Un::Rol, Width::Byte),
            0o1062 => (Un::Asr, Width::Byte),
            0o1063 => (Un::Asl, Width::Byte),
        )
    };
}

/// The mode and the register of a field of six bits.
fn field_of(n: u16) -> Field
    requires { n < 64 }
    ensures value { result ≡ field_at n }
    ensures range { IsField result }
    ensures number { number_of result ≡ n }
{
    Field {
        mode: (n >> 3 & 7) as u8,
        reg: (n & 7) as u8,
    }
}

fn double_row(code: u16) -> Option<(Bin, Width)>
    ensures value { result ≡ look_up doubles code }
    ensures listed { IfSome result (λ p. HasDouble p.0 p.1 × (width_bit p.1 + double_code p.0 * 0o10000 ≡ code * 0o10000)) }
{
    doubles!(read, code)
}

fn eis_row(code: u16) -> Option<EisOp>
    ensures value { result ≡ look_up eis code }
    ensures listed { IfSome result (λ op. eis_code op ≡ code) }
{
    eis!(read, code)
}

fn branch_row(code: u16) -> Option<Cond>
    ensures value { result ≡ look_up branches code }
    ensures listed { IfSome result (λ cond. branch_code cond ≡ code) }
{
    branches!(read, code)
}

fn single_row(code: u16) -> Option<(Un, Width)>
    ensures value { result ≡ look_up singles code }
    ensures listed { IfSome result (λ p. HasSingle p.0 p.1 × (width_bit p.1 + single_code p.0 * 0o100 ≡ code * 0o100)) }
{
    singles!(read, code)
}

fn alone_row(low: u16) -> Option<Instr>
    ensures value { result ≡ look_up alone low }
    ensures listed { IfSome result (λ i. IsListed i × (code_of i ≡ low)) }
{
    read!(low,
        0 => Instr::Halt,
        1 => Instr::Wait,
        2 => Instr::Rti,
        3 => Instr::Bpt,
        4 => Instr::Iot,
        5 => Instr::Reset,
        6 => Instr::Rtt,
    )
}

fn codes_row(low: u16) -> Option<Instr>
    requires { low < 64 }
    ensures value { result ≡ codes_at low }
    ensures listed { IfSome result (λ i. IsListed i × (code_of i ≡ 0o000200 + low)) }
{
    match low {
        0..0o10 => Some(Instr::Rts { reg: low as u8 }),
        0o10..0o30 => None,
        0o30..0o40 => Some(Instr::Spl {
            level: (low - 0o30) as u8,
        }),
        0o40..0o60 => Some(Instr::Codes {
            set: false,
            mask: (low - 0o40) as u8,
        }),
        _ => Some(Instr::Codes {
            set: true,
            mask: (low - 0o60) as u8,
        }),
    }
}

/// The instructions with six bits or fewer, by the top ten bits and the low six.
fn single_part(high: u16, low: u16) -> Option<Instr>
    requires { low < 64 }
    ensures value { result ≡ single_at high low }
    ensures listed { IfSome result (λ i. IsListed i × (code_of i ≡ high * 64 + low)) }
{
    if let Some((op, width)) = single_row(high) {
        return Some(Instr::Single {
            op,
            width,
            dst: field_of(low),
        });
    }
    let field = field_of(low);
    match high {
        0o0000 => alone_row(low),
        0o0001 => Some(Instr::Jmp { dst: field }),
        0o0002 => codes_row(low),
        0o0064 => Some(Instr::Mark { count: low as u8 }),
        0o0065 => Some(Instr::Mfp {
            space: Space::I,
            src: field,
        }),
        0o0066 => Some(Instr::Mtp {
            space: Space::I,
            dst: field,
        }),
        0o1065 => Some(Instr::Mfp {
            space: Space::D,
            src: field,
        }),
        0o1066 => Some(Instr::Mtp {
            space: Space::D,
            dst: field,
        }),
        _ => None,
    }
}

/// The instructions with eight bits.
fn number_part(high: u16, low: u16) -> Option<Instr>
    requires { low < 64 }
    ensures value { result ≡ number_at high low }
    ensures listed { IfSome result (λ i. IsListed i × (code_of i ≡ high * 64 + low)) }
{
    let code = (high >> 2) * 4;
    let n = ((high & 3) * 64 + low) as u8;
    if let Some(cond) = branch_row(code) {
        return Some(Instr::Branch { cond, offset: n });
    }
    match code {
        0o1040 => Some(Instr::Emt { n }),
        0o1044 => Some(Instr::Trap { n }),
        _ => None,
    }
}

/// The instructions with a register and six bits.
fn register_part(high: u16, low: u16) -> Option<Instr>
    requires { low < 64 }
    ensures value { result ≡ register_at high low }
    ensures listed { IfSome result (λ i. IsListed i × (code_of i ≡ high * 64 + low)) }
{
    let code = high >> 3;
    let reg = (high & 7) as u8;
    let field = field_of(low);
    if let Some(op) = eis_row(code) {
        return Some(Instr::Eis {
            op,
            reg,
            src: field,
        });
    }
    match code {
        0o004 => Some(Instr::Jsr { reg, dst: field }),
        0o074 => Some(Instr::Xor { reg, dst: field }),
        0o077 => Some(Instr::Sob {
            reg,
            back: low as u8,
        }),
        _ => None,
    }
}

/// The instruction of a word, by its top ten bits and its low six: the groups are tried one after another.
fn parts(high: u16, low: u16) -> Option<Instr>
    requires { low < 64 }
    ensures value { result ≡ parts_of high low }
    ensures listed { IfSome result (λ i. IsListed i × (code_of i ≡ high * 64 + low)) }
{
    if let Some((op, width)) = double_row(high >> 6) {
        return Some(Instr::Double {
            op,
            width,
            src: field_of(high & 63),
            dst: field_of(low),
        });
    }
    register_part(high, low)
        .or_else(|| number_part(high, low))
        .or_else(|| single_part(high, low))
}

/// The instruction of a word: the one whose word it is, in the form that reads back. None exactly where the table
/// lists none with that word. A word is looked up once in each of a few groups, by its top bits.
pub fn decode(word: u16) -> Option<Instr>
    ensures value { result ≡ decode_of word }
    ensures found { IfSome result (λ i. IsListed i × (code_of i ≡ word)) }
    ensures none { IfNone result ((i : Instr) → IsListed i → code_of i ≢ word) }
    ensures again { (i : Instr) → IsListed i → code_of i ≡ word → result ≡ Some (primary i) }
{
    parts(word >> 6, word & 63)
}

fn number(field: Field) -> u16
    requires { IsField field }
    ensures value { result ≡ number_of field }
    ensures small { result < 64 }
{
    u16::from(field.mode) * 8 + u16::from(field.reg)
}

fn double_base(op: Bin, width: Width) -> u16
    requires { HasDouble op width }
    ensures value { result * 0o10000 ≡ width_bit width + double_code op * 0o10000 }
    ensures small { result < 16 }
{
    doubles!(spell, (op, width))
}

fn single_base(op: Un, width: Width) -> u16
    requires { HasSingle op width }
    ensures value { result * 0o100 ≡ width_bit width + single_code op * 0o100 }
    ensures small { result ≤ 0o1063 }
{
    singles!(spell, (op, width))
}

fn eis_base(op: EisOp) -> u16
    ensures value { result ≡ eis_code op }
    ensures small { result ≤ 0o073 }
{
    eis!(spell_all, op)
}

fn branch_base(cond: Cond) -> u16
    ensures value { result ≡ branch_code cond }
    ensures small { result ≤ 0o1034 }
{
    match cond {
        Cond::Bhis => 0o1030,
        Cond::Blo => 0o1034,
        _ => branches!(spell, cond),
    }
}

fn space_bit(space: Space) -> u16
    ensures { result ≡ space_bit_of space }
{
    match space {
        Space::I => 0,
        Space::D => 0o100000,
    }
}

/// The word of an instruction, by its form.
fn spelt(instr: Instr) -> u16
    requires { IsListed instr }
    ensures { result ≡ code_of instr }
{
    match instr {
        Instr::Double {
            op,
            width,
            src,
            dst,
        } => double_base(op, width) * 0o10000 + number(src) * 0o100 + number(dst),
        Instr::Single { op, width, dst } => single_base(op, width) * 0o100 + number(dst),
        Instr::Xor { reg, dst } => 0o074000 + u16::from(reg) * 0o100 + number(dst),
        Instr::Eis { op, reg, src } => {
            eis_base(op) * 0o1000 + u16::from(reg) * 0o100 + number(src)
        }
        Instr::Jmp { dst } => 0o000100 + number(dst),
        Instr::Jsr { reg, dst } => 0o004000 + u16::from(reg) * 0o100 + number(dst),
        Instr::Rts { reg } => 0o000200 + u16::from(reg),
        Instr::Sob { reg, back } => 0o077000 + u16::from(reg) * 0o100 + u16::from(back),
        Instr::Mark { count } => 0o006400 + u16::from(count),
        Instr::Mfp { space, src } => space_bit(space) + 0o006500 + number(src),
        Instr::Mtp { space, dst } => space_bit(space) + 0o006600 + number(dst),
        Instr::Branch { cond, offset } => branch_base(cond) * 0o100 + u16::from(offset),
        Instr::Codes { set, mask } => 0o000240 + if set { 0o20 } else { 0 } + u16::from(mask),
        Instr::Spl { level } => 0o000230 + u16::from(level),
        Instr::Emt { n } => 0o104000 + u16::from(n),
        Instr::Trap { n } => 0o104400 + u16::from(n),
        Instr::Halt => 0,
        Instr::Wait => 1,
        Instr::Rti => 2,
        Instr::Bpt => 3,
        Instr::Iot => 4,
        Instr::Reset => 5,
        Instr::Rtt => 6,
    }
}

/// The word of an instruction that the table lists. `decode` reads it back as the instruction, but for BHIS and BLO,
/// which come back as BCC and BCS.
pub fn encode(instr: Instr) -> u16
    requires { IsListed instr }
    ensures value { result ≡ code_of instr }
    ensures again { decode_of result ≡ Some (primary instr) }
{
    spelt(instr)
}
