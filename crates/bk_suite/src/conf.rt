// Configurations from the sample on, and the first fault of spoilt ones, at both sides of each limit.

use bk_asm::AsmKind;
use bk_conf::{BuildFault, BuildKind, BuildStop, build, list};
use bk_image::{ImageField, write_image};
use bk_state::Image;
use std::test::Fail;

/// Two subjects at two levels, who share a program that echoes what is typed on a line of their own.
const SAMPLE: &[u8] = b"turns 32
level 0 0
level 1 0
schedule 0 1
subject 0 0 user user 0 0 0 0 0 0 0 0 010400
subject 1 1 user user 0 0 0 0 0 0 0 0 011000
window 0 user i 0 /0
window 1 user i 0 /0
object / directory 0 16
object /0 segment 0 1 echo
object /1 line 0 0
object /2 line 1 1
row / 0 r
row / 1 r
row /0 0 re
row /0 1 re
row /1 0 w
row /2 1 w
hold 0 / r
hold 0 /0 e
hold 0 /1 w
hold 1 / r
hold 1 /0 e
hold 1 /2 w
program echo 0
START:  MOV R5,R1
        MOV #0,R2
        EMT 20
        TST R0
        BEQ GOT
        EMT 24
        BR START
GOT:    MOV R2,R3
        MOV R5,R1
        MOV #0,R2
        EMT 17
        BR START
endprogram
";

const LISTING: &[u8] = b"PROGRAM echo 000000 14
GOT 000020
START 000000
000000: 010501 012702 000000 104020 005700 001402 104024 000770
000020: 010203 010501 012702 000000 104017 000762
";

/// Lines 1 to 5 of a configuration of one subject and root.
const FRONT: &[u8] = b"turns 1
level 0 0
schedule 0
subject 0 0 user user 0 0 0 0 0 0 0 0 0
object / directory 0 3904
";

fn fault_of(built: Result<Image, BuildStop>) -> Option<BuildFault> {
    match built {
        Err(BuildStop::Bad(fault)) => Some(fault),
        _ => None,
    }
}

#[test]
fn builds_and_lists_the_sample(rt: HostRuntime) -> Result<(), Fail> {
    let image = build(rt.alloc(), SAMPLE)?;
    let bytes = write_image(rt.alloc(), &image)?;
    assert_eq!(rt; bytes.len(), 290);
    let header = [66, 76, 80, 75, 1, 0, 32, 0, 2, 2, 2, 2, 4, 0, 6, 0];
    assert_eq!(rt; &bytes[..16], header.as_slice());
    assert_eq!(rt; list(rt.alloc(), SAMPLE)?.as_slice(), LISTING);
    Ok(())
}

// What follows the front of a configuration, and the line and the kind of its first fault.
#[test]
fn tells_the_first_fault(rt: HostRuntime) -> Result<(), Fail> {
    let rows: [(&[u8], u32, BuildKind); 35] = [
        (b"colour 1", 6, BuildKind::Form),
        (b"turns 1 1", 6, BuildKind::Form),
        (b"turns 01", 6, BuildKind::Form),
        (b"turns 65536", 6, BuildKind::Range),
        (b"turns 65535", 6, BuildKind::Doubled),
        (b"fault 0 7 0000000", 6, BuildKind::Form),
        (b"fault 0 7 8", 6, BuildKind::Form),
        (b"fault 0 7 200000", 6, BuildKind::Range),
        (b"fault 0 8 0", 6, BuildKind::Range),
        (b"fault 64 7 0", 6, BuildKind::Range),
        (b"fault 63 7 177777", 6, BuildKind::Unknown),
        (b"fault 0 7 177777", 0, BuildKind::Image(ImageField::Entry)),
        (b"window 0 user d 7 /01", 6, BuildKind::Form),
        (b"window 0 user d 7 /16", 6, BuildKind::Range),
        (b"window 0 user d 7 /0/0/0/0/0/0/0/0", 6, BuildKind::Range),
        (b"window 0 user d 8 /", 6, BuildKind::Range),
        (b"row / 0 er", 6, BuildKind::Form),
        (b"row / 0 r\nrow / 0 w", 7, BuildKind::Doubled),
        (b"row /1 0 r", 6, BuildKind::Unknown),
        (b"row / 1 r", 6, BuildKind::Unknown),
        (b"hold 1 / r\ncolour", 7, BuildKind::Form),
        (b"hold 0 /1 r", 0, BuildKind::Image(ImageField::Exists)),
        (b"hold 0 / r", 0, BuildKind::Image(ImageField::Row)),
        (b"level 256 0", 6, BuildKind::Range),
        (b"level 1 00000000000000000", 6, BuildKind::Form),
        (b"level 0 0", 0, BuildKind::Image(ImageField::Level)),
        (b"object / mailbox 0", 6, BuildKind::Doubled),
        (b"object /1 segment 0 1 p", 6, BuildKind::Unknown),
        (b"program p 1", 6, BuildKind::Form),
        (b"program p 1\nendprogram", 6, BuildKind::Range),
        (b"program p 200000\nendprogram", 6, BuildKind::Range),
        (
            b"program p 0\nendprogram ; p\nprogram p 0\n  endprogram",
            8,
            BuildKind::Doubled,
        ),
        (
            b"program p 0\n; endprogram\n\n1\nendprogram",
            9,
            BuildKind::Program(AsmKind::Form),
        ),
        (
            b"program p 0\nBR NONE\nendprogram",
            7,
            BuildKind::Program(AsmKind::Undefined),
        ),
        (b"schedule 0 0", 6, BuildKind::Doubled),
    ];
    for (more, line, kind) in rows {
        let mut text = FRONT.to_vec(rt.alloc())?;
        text.extend_from_slice(more)?;
        assert_eq!(rt;
            fault_of(build(rt.alloc(), &text)),
            Some(BuildFault { line, kind })
        );
    }
    Ok(())
}

// Lines that are right at their limits; a text without any; the text of each kind that has two words.
#[test]
fn takes_what_is_at_a_limit(rt: HostRuntime) -> Result<(), Fail> {
    for more in [
        b"level 255 7777777777777777\nfault 0 7 177776 ; odd ones aren't".as_slice(),
        b"window 0 user d 7 /15/15/15/15/15/15/15",
        b"program sixteen_letters_ 177776\nendprogram\n",
        b"row / 0 rw\nhold 0 / rw\n\t \n",
    ] {
        let mut text = FRONT.to_vec(rt.alloc())?;
        text.extend_from_slice(more)?;
        assert!(rt; build(rt.alloc(), &text).is_ok());
    }
    let missing = BuildFault {
        line: 0,
        kind: BuildKind::Missing,
    };
    assert_eq!(rt; fault_of(build(rt.alloc(), b"turns 1\n")), Some(missing));
    assert_eq!(rt;
        BuildKind::Program(AsmKind::Undefined).text().as_slice(),
        b"program undefined".as_slice()
    );
    assert_eq!(rt;
        BuildKind::Image(ImageField::Star).text().as_slice(),
        b"image star".as_slice()
    );
    Ok(())
}
