use crate::Core;
use std::test::Fail;

#[test]
fn keeps_words_bytes_and_blocks(rt: HostRuntime) -> Result<(), Fail> {
    let mut core = Core::reserve(rt.alloc()).ok().ok_or("memory")?;
    assert_eq!(rt; core.word(0), 0);
    assert_eq!(rt; core.word(0o757776), 0);

    // The byte at the even address is the low half of the word.
    core.set_word(0o400, 0o123456);
    for (addr, byte) in [(0o377, 0), (0o400, 0o056), (0o401, 0o247), (0o402, 0)] {
        assert_eq!(rt; core.byte(addr), byte, "the byte at {addr}");
    }
    core.set_byte(0o400, 0o101);
    core.set_byte(0o403, 0o377);
    for (addr, word) in [(0o376, 0), (0o400, 0o123501), (0o402, 0o177400), (0o404, 0)] {
        assert_eq!(rt; core.word(addr), word, "the word at {addr}");
    }

    // Blocks 10, 11 and 12 begin with 1, 2 and 3; they move down by one, over themselves.
    for (block, word) in [(10, 1), (11, 2), (12, 3), (13, 4)] {
        core.set_word(64 * block, word);
    }
    core.slide(10, 9, 3);
    for (block, word) in [(8, 0), (9, 1), (10, 2), (11, 3), (12, 3), (13, 4)] {
        assert_eq!(rt; core.word(64 * block), word, "block {block} slid");
    }
    core.zero(10, 2);
    for (block, word) in [(9, 1), (10, 0), (11, 0), (12, 3)] {
        assert_eq!(rt; core.word(64 * block), word, "block {block} cleared");
    }
    Ok(())
}
