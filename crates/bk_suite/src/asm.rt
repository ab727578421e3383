// Programs worked by hand, their listing, and the first faults of others.

use bk_asm::{AsmStop, assemble, listing};
use std::test::Fail;

// A text, and its words at address 0.
#[test]
fn assembles(rt: HostRuntime) -> Result<(), Fail> {
    let rows: [(&str, &[u16]); 6] = [
        (
            "START: MOV #10.,R0\nMOV #<2+3>*4,R1\nBR NEXT\n.WORD 'A,NEXT\nNEXT: SOB R0,NEXT\n",
            &[
                0o012700, 0o000012, 0o012701, 0o000024, 0o000402, 0o000101, 0o000016, 0o077001,
            ],
        ),
        (
            "MOV A,@B\nA: .WORD 1\nB: .WORD .",
            &[0o016777, 0o000002, 0o000002, 1, 0o000010],
        ),
        ("CLR @(R1)\nCLR @2(R1)", &[0o005071, 0, 0o005071, 2]),
        (
            "1$: A: BR 1$\nX=1\nBR 1$\nB: 1$: BR 1$",
            &[0o000777, 0o000776, 0o000777],
        ),
        (
            ".BYTE 1,-1\n.ASCIZ /a/\n.BYTE 2\n.EVEN\n.BLKW 1\n.ASCII /bc/\n.BYTE 3",
            &[0o177401, 0o000141, 2, 0, 0o061542, 3],
        ),
        (
            "MARK 77\nSPL 7\nEMT 377\nTRAP\nRTS PC\nJSR R5,(R1)+\nXOR R2,@#4\nASH #-1,R3",
            &[
                0o006477, 0o000237, 0o104377, 0o104400, 0o000207, 0o004521, 0o074237, 4, 0o072327,
                0o177777,
            ],
        ),
    ];
    for (text, words) in rows {
        let program = assemble(rt.alloc(), text.as_bytes(), 0)?;
        assert_eq!(rt; program.words.as_slice(), words);
    }
    Ok(())
}

#[test]
fn lists(rt: HostRuntime) -> Result<(), Fail> {
    let text = "START:  MOV R5,R1\n MOV #0,R2\n EMT 20\n TST R0\n BEQ GOT\n EMT 24\n BR START\n\
        GOT:    MOV R2,R3\n MOV R5,R1\n MOV #0,R2\n EMT 17\n BR START\nEND=.\n1$:\n";
    let program = assemble(rt.alloc(), text.as_bytes(), 0)?;
    let lines = listing(rt.alloc(), b"echo", &program)?;
    let wanted = "PROGRAM echo 000000 14\nEND 000034\nGOT 000020\nSTART 000000\n\
        000000: 010501 012702 000000 104020 005700 001402 104024 000770\n\
        000020: 010203 010501 012702 000000 104017 000762\n";
    assert_eq!(rt; lines.as_slice(), wanted.as_bytes());

    // The address behind the last word of memory is 0.
    let last = assemble(rt.alloc(), b"NOP\nA:", 0o177776)?;
    let lines = listing(rt.alloc(), b"x", &last)?;
    let wanted = "PROGRAM x 177776 1\nA 000000\n177776: 000240\n";
    assert_eq!(rt; lines.as_slice(), wanted.as_bytes());
    Ok(())
}

// A text, its origin, and the line and the word of its first fault; line 0 where there is none.
#[test]
fn refuses_the_first_fault(rt: HostRuntime) {
    let rows: [(&str, u16, u32, &str); 52] = [
        ("NOP\n:\nA:\n", 0, 2, "form"),
        ("A:\n\n\n\n\n\n\n\nA:\n:\n", 0, 9, "doubled"),
        ("A=1\nA=1", 0, 2, "doubled"),
        ("A: A=1", 0, 1, "doubled"),
        ("1$: A: 1$:", 0, 1, "doubled"),
        ("1$:\nA=1\n1$:", 0, 3, "doubled"),
        ("1$:\nA: 1$:", 0, 0, ""),
        (".BYTE 1\nNOP", 0, 2, "odd"),
        (".BYTE 1\n.WORD 1", 0, 2, "odd"),
        (".BYTE 1\n.BLKW Q", 0, 2, "odd"),
        (".BYTE 1\nA: A: NOP", 0, 2, "doubled"),
        (".BYTE 1\n.ASCII /a/\n.EVEN\nNOP", 0, 0, ""),
        ("A=B\nB=1", 0, 1, "undefined"),
        (".BLKW 1$\n1$:", 0, 1, "undefined"),
        ("1$: .BLKW 1$\nA: B=A", 0, 0, ""),
        ("1$:\nA: B=1$", 0, 2, "undefined"),
        (".BLKW 10000", 0, 0, ""),
        (".BLKW 10001", 0, 1, "size"),
        (".BLKW 177777", 0, 1, "size"),
        (".BLKW Q+177777", 0, 1, "undefined"),
        (".BLKW 10000\n.EVEN\nA: B=A\n.BYTE 1", 2, 4, "size"),
        ("NOP\nA: B=A", 0o177776, 0, ""),
        ("NOP\nNOP", 0o177776, 2, "size"),
        ("A=1/0", 0, 1, "divide"),
        (".BLKW 1/0", 0, 1, "divide"),
        ("A=B/0", 0, 1, "undefined"),
        ("BR A\nB=1/0", 0, 2, "divide"),
        ("NOP\nBR NOWHER", 0, 2, "undefined"),
        (".WORD 1$\nA:\n1$:", 0, 1, "undefined"),
        (".WORD 1/0,A", 0, 1, "undefined"),
        (".BYTE 400,1/0", 0, 1, "divide"),
        (".BYTE 400,A", 0, 1, "undefined"),
        ("BR A\nB:\nB:", 0, 3, "doubled"),
        ("BR A\nMARK 100", 0, 1, "undefined"),
        ("BR .+400", 0, 0, ""),
        ("BR .+402", 0, 1, "range"),
        ("BR .-376", 0, 0, ""),
        ("BR .-400", 0, 1, "range"),
        ("BR .+1", 0, 1, "range"),
        ("SOB R0,.+2", 0, 0, ""),
        ("SOB R0,.+4", 0, 1, "range"),
        ("SOB R0,.-174", 0, 0, ""),
        ("SOB R0,.-176", 0, 1, "range"),
        ("SOB R0,.+1", 0, 1, "range"),
        (".BYTE 377,177600", 0, 0, ""),
        (".BYTE 400", 0, 1, "range"),
        (".BYTE 177577", 0, 1, "range"),
        ("MARK 77\nSPL 7\nEMT 377\nTRAP 377", 0, 0, ""),
        ("MARK 100", 0, 1, "range"),
        ("SPL 10", 0, 1, "range"),
        ("EMT 400", 0, 1, "range"),
        ("TRAP 400", 0, 1, "range"),
    ];
    for (text, origin, line, kind) in rows {
        assert!(rt; origin % 2 == 0);
        let told = match assemble(rt.alloc(), text.as_bytes(), origin) {
            Err(AsmStop::Bad(fault)) => (fault.line, fault.kind.text()),
            _ => (0, ""),
        };
        assert_eq!(rt; told, (line, kind));
    }
}
