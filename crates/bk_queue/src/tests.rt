use crate::{LineIn, Mailbox, Message};

#[test]
fn loses_and_counts_the_seventeenth_message(rt: HostRuntime) {
    let mut mailbox = Mailbox::new();
    assert_eq!(rt; mailbox.take(), None);
    for n in 0..17 {
        assert_eq!(rt; mailbox.put([n, 1, 2, 3]), n < 16, "message {n}");
    }
    for n in 0..16 {
        let message = Message {
            words: [n, 1, 2, 3],
            lost: if n == 0 { 1 } else { 0 },
        };
        assert_eq!(rt; mailbox.take(), Some(message), "message {n}");
    }
    assert_eq!(rt; mailbox.take(), None);

    // 16 are kept; the count of the others stays at its last value.
    for _ in 0..16 + 65_535 + 3 {
        mailbox.put([0; 4]);
    }
    let counts = [mailbox.take(), mailbox.take()].map(|message| match message {
        Some(message) => message.lost,
        None => 1,
    });
    assert_eq!(rt; counts, [65_535, 0]);
}

#[test]
fn keeps_64_typed_bytes(rt: HostRuntime) {
    let mut line = LineIn::new();
    assert_eq!(rt; line.take(), None);
    for n in 0..66 {
        assert_eq!(rt; line.put(n), n < 64, "byte {n}");
    }
    for n in 0..64 {
        assert_eq!(rt; line.take(), Some(n));
    }
    assert_eq!(rt; line.take(), None);
}
