// A text with every form, read with ample memory; and the line of the first fault.

use bk_asm_text::{AsmFault, AsmKind, AsmStop, Body, split};
use std::test::Fail;

// A word for what a statement is.
fn word_of(body: Body<'_>) -> &'static str {
    match body {
        Body::Nothing => "nothing",
        Body::Assign { .. } => "assign",
        Body::Double { .. } => "double",
        Body::Eis { .. } => "eis",
        Body::Xor { .. } => "xor",
        Body::Jsr { .. } => "jsr",
        Body::Single { .. } => "single",
        Body::Rts { .. } => "rts",
        Body::Sob { .. } => "sob",
        Body::Branch { .. } => "branch",
        Body::Mark => "mark",
        Body::Spl => "spl",
        Body::Number { .. } => "number",
        Body::Alone { .. } => "alone",
        Body::WordList => "words",
        Body::ByteList => "bytes",
        Body::Ascii { zero: false, .. } => "ascii",
        Body::Ascii { zero: true, .. } => "asciz",
        Body::Blkw => "blkw",
        Body::Even => "even",
    }
}

#[test]
fn reads_every_form(rt: HostRuntime) -> Result<(), Fail> {
    let rows = [
        ("\n", "nothing"),
        ("A: B: 1$: ; MOV\n", "nothing"),
        ("count = . + <3*10.> ; a name\n", "assign"),
        (".WORD=5\n", "assign"),
        ("\tmov\t(r5)+ , -(sp)\n", "double"),
        ("MUL #2,R0\n", "eis"),
        ("XOR %3,@A\n", "xor"),
        ("JSR PC,@#SUBR\n", "jsr"),
        ("JMP @(R1)\n", "single"),
        ("RTS % 7\n", "rts"),
        ("SOB R1,1$\n", "sob"),
        ("BNE .-4\n", "branch"),
        ("MARK 3\n", "mark"),
        ("SPL 7\n", "spl"),
        ("EMT\n", "number"),
        ("TRAP 12;.\n", "number"),
        ("NOP\n", "alone"),
        (".WORD 1,A,-'a\n", "words"),
        (".EVEN: .byte 'A, '; ,377\n", "bytes"),
        (".ASCII \"a;b\"; c\n", "ascii"),
        (".asciz x x\n", "asciz"),
        (".BLKW 10.\n", "blkw"),
        (".EVEN", "even"),
    ];
    let mut text = String::new(rt.alloc());
    for (line, _) in rows {
        text.push_str(line)?;
    }
    let statements = split(rt.alloc(), text.as_bytes())?;
    assert_eq!(rt; statements.len(), rows.len());
    let mut rest = statements.all();
    for (n, (_, word)) in rows.iter().enumerate() {
        let statement = rest.next().expect(&rt, "a statement");
        assert_eq!(rt; statement.line as usize, n + 1);
        assert_eq!(rt; word_of(statement.body), *word);
    }
    assert!(rt; rest.next().is_none());
    Ok(())
}

#[test]
fn refuses_the_first_line_outside_the_grammar(rt: HostRuntime) {
    let rows: [(&[u8], u32); 6] = [
        (b"R0: NOP", 1),
        (b"NOP\n\nMOV R0\nMOV R1\n", 3),
        (b"A:\nA:\n:", 3),
        (b"NOP ; \x7f\n", 1),
        (b"NOP\r\n", 1),
        (b"NOP\n \n.TITLE A\n", 3),
    ];
    for (text, line) in rows {
        let fault = match split(rt.alloc(), text) {
            Err(AsmStop::Bad(fault)) => Some(fault),
            _ => None,
        };
        let kind = AsmKind::Form;
        assert_eq!(rt; fault, Some(AsmFault { line, kind }));
    }
}
