// Scripts for an image of three lines, of few turns and of the most; and one for each limit of slots.

use bk_fixture::empty_image;
use bk_script::{Script, ScriptFault, ScriptKind, ScriptStop, read_script};
use std::test::Fail;

fn fault_of(read: Result<Script, ScriptStop>) -> Option<ScriptFault> {
    match read {
        Err(ScriptStop::Bad(fault)) => Some(fault),
        _ => None,
    }
}

#[test]
fn reads_records_and_slots(rt: HostRuntime) -> Result<(), Fail> {
    let script = read_script(
        rt.alloc(),
        b"0 0 6869\n1 1 4849\n1 2 00ff\nEND 2\n",
        &empty_image(rt.alloc(), 32, 3),
    )?;
    assert_eq!(rt; script.slots, 2);
    let typed = script.typed.as_slice();
    assert_eq!(rt; typed.len(), 3);
    assert_eq!(rt; (typed[0].slot, typed[0].line), (0, 0));
    assert_eq!(rt; typed[0].bytes.as_slice(), b"hi".as_slice());
    assert_eq!(rt; typed[2].bytes.as_slice(), [0, 255].as_slice());
    // As many slots as the turns allow, and as many as there can be.
    for (turns, bytes) in [
        (4096, b"END 1024\n".as_slice()),
        (1, b"65534 1 61\nEND 65535\n"),
    ] {
        assert!(rt; read_script(rt.alloc(), bytes, &empty_image(rt.alloc(), turns, 2)).is_ok());
    }
    Ok(())
}

#[test]
fn refuses_with_the_first_fault(rt: HostRuntime) {
    let image = empty_image(rt.alloc(), 4096, 2);
    let rows: [(&[u8], u32, ScriptKind); 28] = [
        (b"", 1, ScriptKind::End),
        (b"END 0", 1, ScriptKind::End),
        (b"0 0 61\n", 2, ScriptKind::End),
        (b"0 0 61\n1 0 61", 2, ScriptKind::End),
        (b"\n", 1, ScriptKind::Form),
        (b"00 0 61\nEND 1\n", 1, ScriptKind::Form),
        (b"0 0 6A\nEND 1\n", 1, ScriptKind::Form),
        (b"0 0 6\nEND 1\n", 1, ScriptKind::Form),
        (b"0 0 \nEND 1\n", 1, ScriptKind::Form),
        (b"0 0 61 \nEND 1\n", 1, ScriptKind::Form),
        (b"0  0 61\nEND 1\n", 1, ScriptKind::Form),
        (b"1000000000 0 61\nEND 1\n", 1, ScriptKind::Form),
        (b"0 0 61\nEND 01\n", 2, ScriptKind::Form),
        (b"0 0 61\nend 1\n", 2, ScriptKind::Form),
        (b"65535 0 61\nEND 1\n", 1, ScriptKind::Limit),
        (b"999999999 2 61\nEND 1\n", 1, ScriptKind::Limit),
        (b"END 1025\n", 1, ScriptKind::Limit),
        (b"0 2 61\nEND 1\n", 1, ScriptKind::Line),
        (b"1 0 61\n0 2 61\nEND 2\n", 2, ScriptKind::Line),
        (b"1 0 61\n0 0 61\nEND 2\n", 2, ScriptKind::Order),
        (b"0 1 61\n0 0 61\nEND 1\n", 2, ScriptKind::Order),
        (b"0 0 61\n0 0 61\nEND 1\n", 2, ScriptKind::Order),
        (b"1 0 61\nEND 1\n", 2, ScriptKind::Slot),
        (b"0 0 61\nEND 0\n", 2, ScriptKind::Slot),
        (b"1000 0 61\nEND 1025\n", 2, ScriptKind::Limit),
        (b"END 0\nx", 2, ScriptKind::After),
        (b"END 0\n\n", 2, ScriptKind::After),
        (b"0 0 61\nEND 1\nEND 1\n", 3, ScriptKind::After),
    ];
    for (bytes, line, kind) in rows {
        let fault = fault_of(read_script(rt.alloc(), bytes, &image));
        assert_eq!(rt; fault, Some(ScriptFault { line, kind }));
    }
    let few = empty_image(rt.alloc(), 1, 2);
    let (line, kind) = (1, ScriptKind::Limit);
    let fault = fault_of(read_script(rt.alloc(), b"END 65536\n", &few));
    assert_eq!(rt; fault, Some(ScriptFault { line, kind }));
}

// A record of 128 bytes, and of one more.
#[test]
fn refuses_a_record_of_129_bytes(rt: HostRuntime) -> Result<(), Fail> {
    let image = empty_image(rt.alloc(), 32, 2);
    let mut text = b"0 0 ".to_vec(rt.alloc())?;
    text.extend_from_slice(&[b'6'; 256])?;
    text.extend_from_slice(b"\nEND 1\n")?;
    assert!(rt; read_script(rt.alloc(), &text, &image).is_ok());
    text.insert(4, b'6')?;
    text.insert(4, b'6')?;
    let fault = fault_of(read_script(rt.alloc(), &text, &image));
    let (line, kind) = (1, ScriptKind::Form);
    assert_eq!(rt; fault, Some(ScriptFault { line, kind }));
    Ok(())
}

// A byte over the limit comes before all else; at the limit a line without its LF is told.
#[test]
fn refuses_what_is_too_long(rt: HostRuntime) -> Result<(), Fail> {
    let image = empty_image(rt.alloc(), 32, 2);
    let mut text = vec![in rt.alloc(); b'6'; 1_048_577]?;
    for (line, kind) in [(0, ScriptKind::Long), (1, ScriptKind::End)] {
        let fault = fault_of(read_script(rt.alloc(), &text, &image));
        assert_eq!(rt; fault, Some(ScriptFault { line, kind }));
        text.truncate(1_048_576);
    }
    Ok(())
}
