// One answer of each kind.

use crate::{Decision, Rule, RuleFacts, decide};
use bk_level::Level;
use bk_object::{Kind, Modes};

const LOW: Level = Level {
    class: 0,
    cats: [0, 0, 0],
};

const MIDDLE: Level = Level {
    class: 1,
    cats: [0, 0, 0],
};

const MARKED: Level = Level {
    class: 1,
    cats: [0, 1, 0],
};

// Facts by which every rule is answered yes: a segment that grants all modes, at the caller's one level.
const PASSING: RuleFacts = RuleFacts {
    named: true,
    there: true,
    root: false,
    kind: Kind::Segment,
    row: Modes::R,
    f_s: MIDDLE,
    f_c: MIDDLE,
    f_o: MIDDLE,
    parent_write: true,
    parent_level: MIDDLE,
    new_level: MIDDLE,
    taken: false,
    fits: true,
    rises: true,
    modes: Modes::E,
};

// Rule, the object's level, the greatest and the current one, whether the object is named, and the answer.
#[test]
fn answers_yes_no_and_unknown(rt: HostRuntime) {
    let rows = [
        (Rule::GetRead, MIDDLE, MIDDLE, MIDDLE, true, Decision::Yes),
        (Rule::GetRead, MIDDLE, MIDDLE, LOW, true, Decision::No(3)),
        (Rule::GetRead, MARKED, MIDDLE, LOW, true, Decision::No(2)),
        (Rule::GetRead, LOW, LOW, LOW, false, Decision::Unknown(22)),
        (Rule::RaiseLevel, LOW, MIDDLE, LOW, false, Decision::Yes),
    ];
    for (rule, f_o, f_s, f_c, named, answer) in rows {
        let facts = RuleFacts {
            named,
            f_o,
            f_s,
            f_c,
            ..PASSING
        };
        assert_eq!(rt; decide(&facts, rule), answer);
    }
}
