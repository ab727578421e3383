// Rows of the specification of the command, over sources and sinks in memory.

use crate::status::Status;
use crate::top::run_blpk;
use bk_base::{MemSink, MemSource};
use bk_fixture::{SAMPLE_REPORT, SAMPLE_SCRIPT, sample_bytes};
use bk_report::line_records;
use std::alloc::{AllocError, Global};
use std::test::Fail;

const USAGE: &[u8] = b"usage: blpk run | build | list | gen N\n";

const TOO_LONG: &[u8] = b"script refused at line 0: long\n";

/// The first call of the sample, where a byte was typed.
const FIRST_CALL: &[u8] = b"C 0 2 0 020 000000 010400 000000 000000 000000 010400 yes 0\n";

/// A configuration that holds what isn't there, with a program of one word.
const PROGRAM: &[u8] = b"turns 1
level 0 0
schedule 0
subject 0 0 user user 0 0 0 0 0 0 0 0 0
object / directory 0 16
hold 0 /1 r
program p 0
IOT
endprogram
";

const WRONG_WORDS: [&[&str]; 13] = [
    &["run", "x"],
    &["build", "x"],
    &["List"],
    &[],
    &["RUN"],
    &[""],
    &["gen"],
    &["gen", "01"],
    &["gen", "-1"],
    &["gen", "4294967296"],
    &["gen", "1", "2"],
    &["--help"],
    &["--version"],
];

/// How the outside of a call behaves: the bytes of a read, the reads that fail, the room of the output, the bytes of a write,
/// the writes that fail, and the room of the error output.
#[derive(Clone, Copy)]
struct Outside {
    read: u32,
    failing_read: Option<u32>,
    room: u32,
    write: u32,
    failing_write: Option<u32>,
    error_room: u32,
}

const AMPLE: Outside = Outside {
    read: 4096,
    failing_read: None,
    room: 4096,
    write: 4096,
    failing_write: None,
    error_room: 100,
};

fn listed(alloc: Global, call: Option<u32>) -> Result<Vec<u32>, AllocError> {
    let mut calls = Vec::new(alloc);
    if let Some(call) = call {
        calls.push(call)?;
    }
    Ok(calls)
}

/// What a call of the command is to give: its status, and what was written on the output and on the error output.
type Wanted<'a> = (Status, &'a [u8], &'a [u8]);

/// What a call of the command gives: its status, and what was written on the output and on the error output.
type Given = (Status, Vec<u8>, Vec<u8>);

/// What the command gives.
fn given(alloc: Global, words: &[&str], input: &[u8], outside: Outside) -> Result<Given, Fail> {
    let mut all = Vec::new(alloc);
    for word in words {
        all.push(String::from_str(alloc, word)?)?;
    }
    let mut source = MemSource::new(
        input.to_vec(alloc)?,
        outside.read.max(1),
        listed(alloc, outside.failing_read)?,
    );
    let fails = listed(alloc, outside.failing_write)?;
    let mut sink = MemSink::new(alloc, outside.room, outside.write.max(1), fails)
        .ok()
        .ok_or("memory")?;
    let none = Vec::new(alloc);
    let mut errors = MemSink::new(alloc, outside.error_room, 4096, none)
        .ok()
        .ok_or("memory")?;
    let status = run_blpk(alloc, &all, &mut source, &mut sink, &mut errors);
    Ok((
        status,
        sink.taken().to_vec(alloc)?,
        errors.taken().to_vec(alloc)?,
    ))
}

/// Whether the command gives what is wanted.
fn gives(
    alloc: Global,
    words: &[&str],
    input: &[u8],
    outside: Outside,
    wanted: Wanted,
) -> Result<bool, Fail> {
    let (status, taken, told) = given(alloc, words, input, outside)?;
    Ok(status == wanted.0 && taken.as_slice() == wanted.1 && told.as_slice() == wanted.2)
}

#[test]
fn echoes_what_is_typed(rt: HostRuntime) -> Result<(), Fail> {
    let input = sample_bytes(rt.alloc(), SAMPLE_SCRIPT)?;
    for read in [1, 2, 3, 4096] {
        let outside = Outside { read, ..AMPLE };
        assert!(rt;
            gives(
                rt.alloc(),
                &["run"],
                &input,
                outside,
                (Status::Ok, SAMPLE_REPORT, b"")
            )?
        );
    }
    let none = sample_bytes(rt.alloc(), b"END 0\n")?;
    assert!(rt;
        gives(
            rt.alloc(),
            &["run"],
            &none,
            AMPLE,
            (Status::Ok, b"END 0 0 0 0\n", b"")
        )?
    );
    Ok(())
}

/// An image of one level and two turns a slot, by its parts: subject 0 reads `/1` in a loop, and subject 1 deletes `/1` and
/// stops.
const READER_AND_DELETER: [&[u8]; 16] = [
    // Header: 1 level, 2 subjects, no line, 2 places of the schedule, 4 objects, 4 holds. The level, the schedule.
    b"BLPK",
    &[1, 0, 2, 0, 1, 2, 0, 2, 4, 0, 4, 0],
    &[0, 0, 0, 0],
    &[0, 1],
    // Subject 0: user and user, all registers 0, window 16 to `/0` and window 25 to `/1`.
    &[0, 0, 3, 3],
    &[0; 34],
    &[2, 16, 0, 16, 0, 0, 25, 0, 17, 0, 0],
    // Subject 1: the same, with R1 010400 and R3 000001; window 16 to `/2`.
    &[0, 0, 3, 3, 0, 0, 0, 17, 0, 0, 1, 0],
    &[0; 26],
    &[1, 16, 0, 18, 0, 0],
    // Root with a limit of 16, and w in its row for subject 1.
    &[
        0, 0, 0, 0, 0, 0, 0, 0, 16, 0, 64, 0, 0, 0, 0, 0, 0, 0, 0, 0, 0, 0, 0, 0, 0, 0, 0, 0,
    ],
    // `/0`: words 005737 020000 000775, and e for subject 0.
    &[
        0, 16, 0, 0, 1, 1, 0, 0, 0, 0, 2, 0, 0, 0, 0, 0, 0, 0, 0, 0, 0, 0, 0, 0, 0, 0, 3, 0, 0xdf,
        0x0b, 0x00, 0x20, 0xfd, 0x01,
    ],
    // `/1`: no words, and r for subject 0.
    &[
        0, 17, 0, 0, 1, 1, 0, 0, 0, 0, 1, 0, 0, 0, 0, 0, 0, 0, 0, 0, 0, 0, 0, 0, 0, 0, 0, 0,
    ],
    // `/2`: words 104007 104026, and e for subject 1.
    &[
        0, 18, 0, 0, 1, 1, 0, 0, 0, 0, 32, 0, 0, 0, 0, 0, 0, 0, 0, 0, 0, 0, 0, 0, 0, 0, 2, 0, 0x07,
        0x88, 0x16, 0x88,
    ],
    // What is held: e on `/0` and r on `/1` by subject 0, w on root and e on `/2` by subject 1.
    &[0, 2, 0, 16, 0, 0, 0, 1, 0, 17, 0, 0],
    &[1, 4, 0, 0, 0, 0, 1, 2, 0, 18, 0, 0],
];

// After three slots both processes are stopped, and the slots up to the last that there can be go by.
#[test]
fn stops_a_reader_whose_segment_is_deleted(rt: HostRuntime) -> Result<(), Fail> {
    for (script, end) in [
        (b"END 3\n".as_slice(), b"END 3 6 9 2\n".as_slice()),
        (b"END 65535\n", b"END 65535 131070 9 2\n"),
    ] {
        let mut input = Vec::new(rt.alloc());
        for part in READER_AND_DELETER {
            input.extend_from_slice(part)?;
        }
        input.extend_from_slice(script)?;
        let mut report = b"C 1 0 1 007 000000 010400 000000 000001 000000 000000 yes 0
C 1 1 1 026 000000 000000 000000 000001 000000 000000 yes 0
F 2 0 0 1 000000 stop
"
            .to_vec(rt.alloc())?;
        report.extend_from_slice(end)?;
        assert!(rt;
            gives(
                rt.alloc(),
                &["run"],
                &input,
                AMPLE,
                (Status::Ok, &report, b"")
            )?
        );
    }
    Ok(())
}

#[test]
fn answers_no_where_nothing_is_typed(rt: HostRuntime) -> Result<(), Fail> {
    let input = sample_bytes(rt.alloc(), b"0 0 6869\nEND 2\n")?;
    let mut report = Vec::new(rt.alloc());
    // The lines of slot 0 are the same.
    for line in SAMPLE_REPORT.split(|byte| *byte == b'\n').take(8) {
        report.extend_from_slice(line)?;
        report.push(b'\n')?;
    }
    report.extend_from_slice(
        b"C 1 2 1 020 000000 011000 000000 000000 000000 011000 no 9
C 1 5 1 024 000001 000011 000000 000000 000000 011000 yes 0
END 2 64 38 8
",
    )?;
    assert!(rt;
        gives(
            rt.alloc(),
            &["run"],
            &input,
            AMPLE,
            (Status::Ok, &report, b"")
        )?
    );
    // The records of line 0 are those of the run in which bytes are typed on line 1 too.
    for text in [report.as_slice(), SAMPLE_REPORT] {
        let records = line_records(rt.alloc(), text, 0b01).ok().ok_or("memory")?;
        assert_eq!(rt;
            records.as_slice(),
            b"L 0 8 0 150\nL 0 18 0 151\n".as_slice()
        );
    }
    Ok(())
}

#[test]
fn refuses_wrong_words(rt: HostRuntime) -> Result<(), Fail> {
    let input = sample_bytes(rt.alloc(), SAMPLE_SCRIPT)?;
    for words in WRONG_WORDS {
        assert!(rt;
            gives(
                rt.alloc(),
                words,
                &input,
                AMPLE,
                (Status::Usage, b"", USAGE)
            )?
        );
    }
    let outside = Outside {
        error_room: 5,
        ..AMPLE
    };
    assert!(rt;
        gives(
            rt.alloc(),
            &[],
            &input,
            outside,
            (Status::WriteFault, b"", b"usage")
        )?
    );
    Ok(())
}

/// What the word gives of a configuration.
fn converts(alloc: Global, word: &str, text: &[u8], wanted: Wanted) -> Result<bool, Fail> {
    gives(alloc, &[word], text, AMPLE, wanted)
}

#[test]
fn lists_or_refuses_a_configuration(rt: HostRuntime) -> Result<(), Fail> {
    let rows: [(&str, &[u8], Wanted); 4] = [
        (
            "list",
            PROGRAM,
            (Status::Ok, b"PROGRAM p 000000 1\n000000: 000004\n", b""),
        ),
        (
            "build",
            b"colour 1",
            (
                Status::BuildRefused,
                b"",
                b"build refused at line 1: form\n",
            ),
        ),
        (
            "list",
            b"",
            (
                Status::BuildRefused,
                b"",
                b"build refused at line 0: missing\n",
            ),
        ),
        (
            "build",
            PROGRAM,
            (
                Status::BuildRefused,
                b"",
                b"build refused at line 0: image exists\n",
            ),
        ),
    ];
    for (word, text, wanted) in rows {
        assert!(rt; converts(rt.alloc(), word, text, wanted)?);
    }
    Ok(())
}

#[test]
fn generates_and_runs_a_large_run(rt: HostRuntime) -> Result<(), Fail> {
    let end = b"END 4096 262144 81888 16380\n";
    assert!(rt;
        gives(
            rt.alloc(),
            &["gen", "1000"],
            b"",
            AMPLE,
            (Status::Ok, end, b"")
        )?
    );
    Ok(())
}

#[test]
fn tells_the_first_fault_of_an_image(rt: HostRuntime) -> Result<(), Fail> {
    let alloc = rt.alloc();
    // A byte of the sample, what it is made to be, and the line.
    let rows: [(usize, u8, &[u8]); 16] = [
        (0, 0, b"image refused at 0: magic\n"),
        (4, 3, b"image refused at 4: version\n"),
        (4, 2, b"image refused at 24: level\n"),
        (7, 17, b"image refused at 6: turns\n"),
        (8, 0, b"image refused at 8: counts\n"),
        (17, 1, b"image refused at 16: level\n"),
        (25, 2, b"image refused at 25: schedule\n"),
        (48, 1, b"image refused at 26: entry\n"),
        (65, 32, b"image refused at 65: window\n"),
        (122, 0, b"image refused at 114: quota\n"),
        (146, 4, b"image refused at 142: kind\n"),
        (147, 0, b"image refused at 142: blocks\n"),
        (149, 1, b"image refused at 142: zero\n"),
        (169, 1, b"image refused at 142: contents\n"),
        (254, 2, b"image refused at 254: subject\n"),
        (285, 8, b"image refused at 284: row\n"),
    ];
    for (place, byte, line) in rows {
        let mut input = sample_bytes(alloc, SAMPLE_SCRIPT)?;
        if let Some(old) = input.get_mut(place) {
            *old = byte;
        }
        assert!(rt;
            gives(
                rt.alloc(),
                &["run"],
                &input,
                AMPLE,
                (Status::ImageRefused, b"", line)
            )?
        );
    }
    // The image is cut short.
    let whole = sample_bytes(alloc, b"")?;
    for length in 0..290usize {
        let line = format!(in alloc; "image refused at {length}: end\n")?;
        let wanted = (Status::ImageRefused, b"".as_slice(), line.as_bytes());
        if let Some(front) = whole.get(..length) {
            assert!(rt; gives(rt.alloc(), &["run"], front, AMPLE, wanted)?);
        }
    }
    // The line doesn't go out whole.
    let outside = Outside {
        error_room: 5,
        ..AMPLE
    };
    assert!(rt;
        gives(
            rt.alloc(),
            &["run"],
            b"",
            outside,
            (Status::WriteFault, b"", b"image")
        )?
    );
    Ok(())
}

#[test]
fn tells_the_first_fault_of_a_script(rt: HostRuntime) -> Result<(), Fail> {
    let rows: [(&[u8], &[u8]); 11] = [
        (b"", b"script refused at line 1: end\n"),
        (b"END 1", b"script refused at line 1: end\n"),
        (b"END x\n", b"script refused at line 1: form\n"),
        (b"0 0 6A\nEND 1\n", b"script refused at line 1: form\n"),
        (b"65535 0 61\nEND 1\n", b"script refused at line 1: limit\n"),
        (b"END 65536\n", b"script refused at line 1: limit\n"),
        (b"0 2 61\nEND 1\n", b"script refused at line 1: line\n"),
        (
            b"1 0 61\n0 0 61\nEND 2\n",
            b"script refused at line 2: order\n",
        ),
        (b"1 0 61\nEND 1\n", b"script refused at line 2: slot\n"),
        (b"END 0\nx", b"script refused at line 2: after\n"),
        (
            b"0 0 61\n1 0 61\n2 0 61\n3 0 61\n4 0 61\n5 0 61\n6 0 61\n7 0 61\n8 0 61\n9\n",
            b"script refused at line 10: form\n",
        ),
    ];
    for (script, line) in rows {
        let input = sample_bytes(rt.alloc(), script)?;
        assert!(rt;
            gives(
                rt.alloc(),
                &["run"],
                &input,
                AMPLE,
                (Status::ScriptRefused, b"", line)
            )?
        );
    }
    Ok(())
}

/// The report of a run that ends well and tells nothing on the error output.
fn report_of(alloc: Global, input: &[u8]) -> Result<Vec<u8>, Fail> {
    let mut words = Vec::new(alloc);
    words.push(String::from_str(alloc, "run")?)?;
    let mut source = MemSource::new(input.to_vec(alloc)?, 4096, Vec::new(alloc));
    let mut sink = MemSink::new(alloc, 65_536, 4096, Vec::new(alloc))
        .ok()
        .ok_or("memory")?;
    let mut errors = MemSink::new(alloc, 100, 4096, Vec::new(alloc))
        .ok()
        .ok_or("memory")?;
    let status = run_blpk(alloc, &words, &mut source, &mut sink, &mut errors);
    if status != Status::Ok || !errors.taken().is_empty() {
        return Err("no run".into());
    }
    Ok(sink.taken().to_vec(alloc)?)
}

/// The records of the bytes 1 to 64, which the first subject sends out one in 10 of its turns; its slots of 32 turns are
/// every second one.
fn echoes(alloc: Global) -> Result<Vec<u8>, AllocError> {
    let mut records = Vec::new(alloc);
    for n in 0..64u32 {
        let turn = 10 * n + 8;
        let record = format!(in alloc; "L {} {} 0 {:03o}\n", turn / 32 * 2, turn % 32, n + 1)?;
        records.extend_from_slice(record.as_bytes())?;
    }
    Ok(records)
}

// The bytes 1 to 65 are typed, and the first subject finds 64 of them.
#[test]
fn keeps_64_bytes_of_a_record_of_65(rt: HostRuntime) -> Result<(), Fail> {
    let mut script = b"0 0 ".to_vec(rt.alloc())?;
    for byte in 1..66u32 {
        let digits = format!(in rt.alloc(); "{:02x}", byte)?;
        script.extend_from_slice(digits.as_bytes())?;
    }
    script.extend_from_slice(b"\nEND 41\n")?;
    let input = sample_bytes(rt.alloc(), &script)?;
    let report = report_of(rt.alloc(), &input)?;
    let records = line_records(rt.alloc(), &report, 0b01)
        .ok()
        .ok_or("memory")?;
    assert_eq!(rt; records.as_slice(), echoes(rt.alloc())?.as_slice());
    let last = b"
C 40 2 0 020 000000 010400 000000 000100 000000 010400 no 9
C 40 5 0 024 000001 000011 000000 000100 000000 010400 yes 0
END 41 1312 934 170
";
    assert!(rt; report.ends_with(last));
    Ok(())
}

/// A well-formed script: 3,957 records on line 0, one a slot from the first on, the first of 109 bytes and the others of
/// 128, and an END line. It has 1,048,576 bytes from slot 9,999 on, and one more from slot 10,000 on.
fn long_script(alloc: Global, first: u16) -> Result<Vec<u8>, AllocError> {
    let first = u32::from(first);
    let mut script = Vec::new(alloc);
    for slot in first..first + 3_957 {
        if slot >= 10_000 {
            script.push(b'0' + (slot / 10_000 % 10) as u8)?;
        }
        script.push(b'0' + (slot / 1_000 % 10) as u8)?;
        script.push(b'0' + (slot / 100 % 10) as u8)?;
        script.push(b'0' + (slot / 10 % 10) as u8)?;
        script.push(b'0' + (slot % 10) as u8)?;
        script.extend_from_slice(b" 0 ")?;
        let typed = if slot == first { 109u8 } else { 128 };
        for _n in 0..typed {
            script.extend_from_slice(b"61")?;
        }
        script.push(b'\n')?;
    }
    script.extend_from_slice(b"END 65535\n")?;
    Ok(script)
}

#[test]
fn reads_a_script_up_to_its_limit(rt: HostRuntime) -> Result<(), Fail> {
    let script = long_script(rt.alloc(), 10_000)?;
    assert_eq!(rt; script.len(), 1_048_577);
    let input = sample_bytes(rt.alloc(), &script)?;
    assert!(rt;
        gives(
            rt.alloc(),
            &["run"],
            &input,
            AMPLE,
            (Status::ScriptRefused, b"", TOO_LONG)
        )?
    );
    // One byte less is taken: the run begins, and ends as its output has room for one line alone.
    let script = long_script(rt.alloc(), 9_999)?;
    assert_eq!(rt; script.len(), 1_048_576);
    let input = sample_bytes(rt.alloc(), &script)?;
    let line = b"C 0 2 0 020 000000 010400 000000 000000 000000 010400 no 9\n";
    let outside = Outside {
        room: line.len() as u32,
        ..AMPLE
    };
    assert!(rt;
        gives(
            rt.alloc(),
            &["run"],
            &input,
            outside,
            (Status::WriteFault, line, b"")
        )?
    );
    Ok(())
}

#[test]
fn tells_a_read_fault(rt: HostRuntime) -> Result<(), Fail> {
    let input = sample_bytes(rt.alloc(), SAMPLE_SCRIPT)?;
    // 314 bytes in pieces of 64 are five reads, and the sixth finds the end.
    for (read, reads) in [(1, 315), (64, 6), (4096, 2)] {
        for call in 0..reads {
            let outside = Outside {
                read,
                failing_read: Some(call),
                ..AMPLE
            };
            assert!(rt;
                gives(
                    rt.alloc(),
                    &["run"],
                    &input,
                    outside,
                    (Status::ReadFault, b"", b"read fault\n")
                )?
            );
        }
    }
    Ok(())
}

#[test]
fn leaves_a_front_of_the_report_at_a_write_fault(rt: HostRuntime) -> Result<(), Fail> {
    let input = sample_bytes(rt.alloc(), SAMPLE_SCRIPT)?;
    for room in 0..SAMPLE_REPORT.len() {
        let outside = Outside {
            room: room as u32,
            ..AMPLE
        };
        assert!(rt;
            gives(
                rt.alloc(),
                &["run"],
                &input,
                outside,
                (Status::WriteFault, &SAMPLE_REPORT[..room], b"")
            )?
        );
    }
    // Each write that is made fails in turn: 791 bytes by 16 at a time are 50 writes at least.
    for (write, least) in [(16, 50), (4096, 1)] {
        let mut broken = 0;
        for call in 0..100 {
            let outside = Outside {
                write,
                failing_write: Some(call),
                ..AMPLE
            };
            let (status, taken, told) = given(rt.alloc(), &["run"], &input, outside)?;
            assert!(rt; SAMPLE_REPORT.starts_with(&taken) && told.is_empty());
            if status != Status::WriteFault {
                assert!(rt; status == Status::Ok && taken.len() == SAMPLE_REPORT.len());
                break;
            }
            broken = call + 1;
        }
        assert!(rt; broken >= least);
    }
    Ok(())
}
