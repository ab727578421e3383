use bk_report::{ReportItem, line_records, print, read_item};
use std::test::Fail;

// A line of each kind: the item is printed as it, and read again from it.
#[test]
fn lines_of_items(rt: HostRuntime) -> Result<(), Fail> {
    let rows: [(ReportItem, &[u8]); 4] = [
        (
            ReportItem::Call {
                slot: 0,
                turn: 22,
                subject: 0,
                number: 0o20,
                regs: [0, 0o10400, 0, 0o151, 0, 0o10400],
                answer: 1,
                cause: 9,
            },
            b"C 0 22 0 020 000000 010400 000000 000151 000000 010400 no 9\n",
        ),
        (
            ReportItem::Fault {
                slot: 0,
                turn: 1,
                subject: 0,
                cause: 1,
                pc: 2,
                entered: false,
            },
            b"F 0 1 0 1 000002 stop\n",
        ),
        (
            ReportItem::Byte {
                slot: 1,
                turn: 8,
                line: 1,
                byte: 0o110,
            },
            b"L 1 8 1 110\n",
        ),
        (
            ReportItem::End {
                slots: 2,
                turns: 64,
                references: 62,
                calls: 12,
            },
            b"END 2 64 62 12\n",
        ),
    ];
    for (item, line) in rows {
        if let ReportItem::Call { answer, cause, .. } = item {
            assert!(rt; answer == 1 && cause == 9);
        }
        assert_eq!(rt; print(&item).as_slice(), line);
        assert_eq!(rt; read_item(line), Some((item, line.len())));
    }
    assert_eq!(rt; read_item(b"L 1 8 1 0110\n"), None);
    Ok(())
}

#[test]
fn records_of_a_line(rt: HostRuntime) -> Result<(), Fail> {
    let report =
        b"C 0 8 0 017 000000 010400 000000 000150 000000 010400 yes 0\nL 0 8 0 150\nL 1 8 1 110\nL 1 18 1 111\nEND 2 64 62 12\n";
    let records = line_records(rt.alloc(), report, 0b10)?;
    assert_eq!(rt;
        records.as_slice(),
        b"L 1 8 1 110\nL 1 18 1 111\n".as_slice()
    );
    Ok(())
}
