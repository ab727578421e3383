// What an object is charged.

ghost use Rattle.std.specs.Prelude.{◌≡◌};
ghost use Rattle.bk_quota.specs.Charges as model;

use bk_object::{Facts, Kind};

/// The charge of an object whose parent has that level number: 1 for a directory at its parent's level and its whole
/// quota for an upgraded one, its blocks for a segment, 2 for a mailbox, 1 for a line.
pub fn charge_of(facts: &Facts, parent_level: u8) -> u16
    ensures { result ≡ model.charge_of facts.now parent_level }
{
    match facts.kind {
        Kind::Directory => {
            if facts.level == parent_level {
                1
            } else {
                facts.quota
            }
        }
        Kind::Segment => u16::from(facts.blocks),
        Kind::Mailbox => 2,
        Kind::Line(_) => 1,
    }
}

#[cfg(test)]
mod tests {
    use super::charge_of;
    use bk_object::{Facts, Kind, Row};

    // Kind, blocks, quota, level, the parent's level, and the charge.
    #[test]
    fn charges_by_kind(rt: HostRuntime) {
        let rows = [
            (Kind::Directory, 0, 0, 1, 1, 1),
            (Kind::Directory, 0, 5, 1, 0, 5),
            (Kind::Segment, 4, 0, 1, 0, 4),
            (Kind::Mailbox, 0, 0, 1, 0, 2),
            (Kind::Line(0), 0, 0, 0, 0, 1),
        ];
        for (kind, blocks, quota, level, above, charge) in rows {
            let facts = Facts {
                kind,
                blocks,
                level,
                quota,
                row: Row::new(),
            };
            assert_eq!(rt; charge_of(&facts, above), charge);
        }
    }
}
