use bk_base::{
    Buf, Bytes, Failed, MemSink, MemSource, NullSink, ReadStop, Sink, Source, StdSink, StdSource,
    SteadySource, Words, read_all, write_all,
};
use std::alloc::{AllocError, Global};
use std::fs;
use std::test::Fail;

// The numbers from 0 to n less 1.
fn count_up(alloc: Global, n: u8) -> Result<Vec<u8>, AllocError> {
    let mut bytes = Vec::new(alloc);
    for byte in 0..n {
        bytes.push(byte)?;
    }
    Ok(bytes)
}

#[test]
fn reads_to_the_end_or_the_first_max(rt: HostRuntime) -> Result<(), Fail> {
    // The maximum, and how many of 50 bytes are read.
    for (max, count) in [
        (0, 0),
        (1, 1),
        (16, 16),
        (49, 49),
        (50, 50),
        (51, 50),
        (9999, 50),
    ] {
        let none = Vec::new(rt.alloc());
        let mut source = MemSource::new(count_up(rt.alloc(), 50)?, 16, none);
        let read = read_all(rt.alloc(), &mut source, max).ok().ok_or("memory")?;
        assert_eq!(rt; read, count_up(rt.alloc(), count)?, "at most {max}");
    }
    let mut steady = SteadySource::new(vec![in rt.alloc(); 7; 5000]?);
    let mut buf = Buf::new();
    assert_eq!(rt; steady.read(5000, &mut buf), Ok(4096));
    assert_eq!(rt; buf.bytes().len(), 4096);
    let rest = read_all(rt.alloc(), &mut steady, 5000)
        .ok()
        .ok_or("memory")?;
    assert_eq!(rt; rest.len(), 904);
    Ok(())
}

#[test]
fn fails_at_the_listed_reads(rt: HostRuntime) -> Result<(), Fail> {
    let fails = [1, 3].to_vec(rt.alloc())?;
    let mut source = MemSource::new(count_up(rt.alloc(), 9)?, 4, fails);
    let mut buf = Buf::new();
    for (answer, bytes) in [
        (Ok(4), [0, 1, 2, 3].as_slice()),
        (Err(Failed), [0, 1, 2, 3].as_slice()),
        (Ok(4), [4, 5, 6, 7].as_slice()),
        (Err(Failed), [4, 5, 6, 7].as_slice()),
        (Ok(1), [8].as_slice()),
        (Ok(0), [].as_slice()),
    ] {
        assert_eq!(rt; source.read(100, &mut buf), answer);
        assert_eq!(rt; buf.bytes(), bytes);
    }
    let first = [0].to_vec(rt.alloc())?;
    let mut source = MemSource::new(count_up(rt.alloc(), 9)?, 4, first);
    let read = read_all(rt.alloc(), &mut source, 100);
    assert!(rt; matches!(read, Err(ReadStop::Fault)));
    Ok(())
}

#[test]
fn takes_what_the_room_and_the_list_allow(rt: HostRuntime) -> Result<(), Fail> {
    // Room, piece, the number of the call that fails, and how many of ten bytes are taken.
    for (room, piece, fails, count) in [
        (100, 16, 9, 10),
        (10, 16, 9, 10),
        (7, 16, 9, 7),
        (100, 3, 2, 6),
        (0, 1, 9, 0),
    ] {
        let fails = [fails].to_vec(rt.alloc())?;
        let mut sink = MemSink::new(rt.alloc(), room, piece, fails)
            .ok()
            .ok_or("memory")?;
        let written = write_all(&mut sink, count_up(rt.alloc(), 10)?.as_slice());
        assert_eq!(rt; written.is_ok(), count == 10, "room {room}, piece {piece}");
        assert_eq!(rt; sink.taken(), count_up(rt.alloc(), count)?.as_slice());
    }
    let mut nothing = NullSink::new();
    assert_eq!(rt; write_all(&mut nothing, b"any"), Ok(()));
    assert_eq!(rt; nothing.write(b"any"), Ok(3));
    Ok(())
}

#[test]
fn passes_on_what_std_gives_and_takes(rt: HostRuntime) -> Result<(), Fail> {
    let mut source = StdSource::new(b"six at".as_slice());
    let read = read_all(rt.alloc(), &mut source, 100).ok().ok_or("memory")?;
    assert_eq!(rt; read.as_slice(), b"six at".as_slice());

    // A directory opens, and no read of it succeeds.
    let mut folder = StdSource::new(fs::open(&rt, "/")?);
    let read = read_all(rt.alloc(), &mut folder, 100);
    assert!(rt; matches!(read, Err(ReadStop::Fault)));

    let mut sink = StdSink::new(Vec::new(rt.alloc()));
    assert_eq!(rt; write_all(&mut sink, b"six at"), Ok(()));

    // A device that is always full.
    let full = fs::OpenOptions::new().write(true).open(&rt, "/dev/full")?;
    let mut sink = StdSink::new(full);
    assert_eq!(rt; write_all(&mut sink, b"six at"), Err(Failed));
    Ok(())
}

#[test]
fn keeps_its_list(rt: HostRuntime) -> Result<(), Fail> {
    let bytes = Bytes::from_vec([1, 2, 255].to_vec(rt.alloc())?);
    assert_eq!(rt; bytes.as_slice(), [1, 2, 255].as_slice());
    let words = Words::from_vec([1, 65535].to_vec(rt.alloc())?);
    assert_eq!(rt; words.as_slice(), [1, 65535].as_slice());
    Ok(())
}
