// Generated images and scripts against lengths and sums that were computed outside.

use bk_gen::generate;
use bk_image::write_image;
use bk_script::read_script;
use bk_system::{Script, TypedAt};
use std::alloc::{AllocError, Global};
use std::fmt::Write;
use std::test::Fail;

/// The two halves of the Adler-32 sum of the bytes: 1 and the sum of the bytes, and the sum of these sums, modulo 65,521.
fn adler(bytes: &[u8]) -> (u32, u32) {
    let mut low = 1u32;
    let mut high = 0u32;
    for byte in bytes {
        low = low.wrapping_add(u32::from(*byte)) % 65_521;
        high = high.wrapping_add(low) % 65_521;
    }
    (low, high)
}

fn put_line(text: &mut String, typed: &TypedAt) -> Result<(), AllocError> {
    let slot = typed.slot;
    let line = typed.line;
    write!(text, "{slot} {line} ")?;
    for byte in typed.bytes.as_slice() {
        write!(text, "{byte:02x}")?;
    }
    writeln!(text)
}

/// The text of a script: a line for each record, and END with the number of slots.
fn text_of(alloc: Global, script: &Script) -> Result<String, AllocError> {
    let mut text = String::new(alloc);
    for typed in script.typed.as_slice() {
        put_line(&mut text, typed)?;
    }
    let slots = script.slots;
    writeln!(text, "END {slots}")?;
    Ok(text)
}

// A number, and the two halves of the sum of its script's text, which has 39,859 bytes. The image, of 8,888 bytes, is the same
// for all of them; the script is read again for it.
#[test]
fn makes_what_was_made_outside(rt: HostRuntime) -> Result<(), Fail> {
    let alloc = rt.alloc();
    let rows: [(u32, u32, u32); 18] = [
        (0, 30653, 53292),
        (1, 33167, 27609),
        (2, 32404, 13551),
        (3, 34170, 50129),
        (7, 32366, 17615),
        (10, 33056, 21956),
        (99, 32274, 21173),
        (1000, 32763, 5594),
        (1001, 29504, 34428),
        (4096, 32551, 28576),
        (65535, 30726, 953),
        (65536, 33114, 29192),
        (1_000_000, 29857, 14207),
        (123_456_789, 33580, 59828),
        (2_147_483_647, 32183, 21347),
        (2_147_483_648, 31667, 55434),
        (4_294_967_294, 33874, 58577),
        (4_294_967_295, 32939, 10286),
    ];
    for (n, low, high) in rows {
        let (image, script) = generate(alloc, n).ok().ok_or("memory")?;
        let bytes = write_image(alloc, &image).ok().ok_or("not written")?;
        assert_eq!(rt; bytes.len(), 8888);
        assert_eq!(rt; adler(&bytes), (22443, 49778));
        let text = text_of(alloc, &script)?;
        assert_eq!(rt; text.len(), 39859);
        assert_eq!(rt; adler(text.as_bytes()), (low, high));
        let again = read_script(alloc, text.as_bytes(), &image)
            .ok()
            .ok_or("no script")?;
        assert_eq!(rt; again.typed.as_slice().len(), 4096);
    }
    Ok(())
}
