// Expressions a million parts deep.

use bk_expr::{Names, Worked, read_expression, value_of};
use std::alloc::{AllocError, Global};
use std::test::Fail;

struct NoNames;

impl Names for NoNames {
    ghost use Rattle.std.specs.Prelude.{None};

    ghost values = { λ _. record { name = λ _. None; local = λ _. None } };

    fn name(&self, _name: &[u8]) -> Option<u16> {
        None
    }

    fn local(&self, _n: u16) -> Option<u16> {
        None
    }
}

// A million times `before`, 1, and a million times `after`.
fn text_of(alloc: Global, before: &[u8], after: &[u8]) -> Result<Vec<u8>, AllocError> {
    let mut text = Vec::new(alloc);
    for _ in 0..1_000_000 {
        text.extend_from_slice(before)?;
    }
    text.push(b'1')?;
    for _ in 0..1_000_000 {
        text.extend_from_slice(after)?;
    }
    Ok(text)
}

#[test]
fn a_million_parts(rt: HostRuntime) -> Result<(), Fail> {
    let rows: [(&[u8], &[u8], Option<Worked>); 4] = [
        (b"-", b"", Some(Worked::Value(1))),
        (b"<", b">", Some(Worked::Value(1))),
        (b"", b"+7*1", Some(Worked::Value(53185))),
        (b"<", b"", None),
    ];
    for (before, after, expected) in rows {
        let text = text_of(rt.alloc(), before, after)?;
        let found = match read_expression(rt.alloc(), text.as_slice())? {
            Some((expr, _)) => Some(value_of(rt.alloc(), &expr, &NoNames, 0)?),
            None => None,
        };
        assert_eq!(rt; found, expected);
    }
    Ok(())
}
