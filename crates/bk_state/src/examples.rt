// Values worked by hand, which a wrong definition would miss.

ghost use Rattle.std.specs.Prelude.{◌≡◌, true, false, [], ◌∷◌, ◌++◌, map, replicate};
ghost use Rattle.bk_object.specs.Modes.{Read, Execute, Write, Append};
ghost use Rattle.bk_state.specs.Allowed.{allows, is_simple, is_star};
ghost use Rattle.bk_state.specs.Calls.{calls, definition_of};
ghost use Rattle.bk_state.specs.Causes.{cause_number, order};
ghost use Rattle.bk_state.specs.Contents.{queued, put, without_byte, without_message};
ghost use Rattle.bk_state.specs.Example.{low, marked, middle};
ghost use Rattle.bk_state.specs.Request.{is_outside, kind_from, path_in};
ghost use Rattle.bk_state.specs.State.{Messages, Typed};
ghost use Rattle.bk_state.specs.TreeCalls.{is_no_object};

use bk_object::Kind;

/// The checks of the 23 calls by the numbers of their causes, and the order of all.
pub fn law_checks()
    ensures order { map cause_number order ≡ 20 ∷ 21 ∷ 24 ∷ 22 ∷ 25 ∷ 23 ∷ 11 ∷ 4 ∷ 8 ∷ 1 ∷ 2 ∷ 3 ∷ 5 ∷ 6 ∷ 7 ∷ 10 ∷ 9 ∷ 12 ∷ [] }
    ensures checks { map (λ call. map cause_number (definition_of call).checks) calls ≡
        (21 ∷ 22 ∷ 25 ∷ 23 ∷ 1 ∷ 2 ∷ 3 ∷ [])
        ∷ (21 ∷ 22 ∷ 25 ∷ 23 ∷ 1 ∷ 3 ∷ [])
        ∷ (21 ∷ 22 ∷ 25 ∷ 23 ∷ 1 ∷ 2 ∷ 3 ∷ [])
        ∷ (21 ∷ 22 ∷ 25 ∷ 23 ∷ 1 ∷ 2 ∷ 3 ∷ [])
        ∷ (21 ∷ 24 ∷ [])
        ∷ (21 ∷ 24 ∷ 22 ∷ 25 ∷ 23 ∷ 11 ∷ 4 ∷ [])
        ∷ (21 ∷ 24 ∷ 22 ∷ 25 ∷ 23 ∷ 11 ∷ 4 ∷ [])
        ∷ (21 ∷ 24 ∷ 22 ∷ 11 ∷ 4 ∷ 5 ∷ 6 ∷ 7 ∷ [])
        ∷ (21 ∷ 22 ∷ 25 ∷ 11 ∷ 4 ∷ [])
        ∷ (21 ∷ 24 ∷ 22 ∷ 25 ∷ 23 ∷ 8 ∷ [])
        ∷ (24 ∷ [])
        ∷ (21 ∷ 24 ∷ 22 ∷ 25 ∷ 23 ∷ 8 ∷ 10 ∷ [])
        ∷ (21 ∷ 22 ∷ 25 ∷ 23 ∷ 8 ∷ [])
        ∷ (21 ∷ 22 ∷ 25 ∷ 23 ∷ 8 ∷ 9 ∷ [])
        ∷ (21 ∷ 22 ∷ 25 ∷ 23 ∷ 8 ∷ [])
        ∷ (21 ∷ 22 ∷ 25 ∷ 23 ∷ 8 ∷ 9 ∷ [])
        ∷ (21 ∷ 24 ∷ 22 ∷ 25 ∷ 23 ∷ 8 ∷ 9 ∷ [])
        ∷ []
        ∷ (21 ∷ 22 ∷ 25 ∷ 23 ∷ 8 ∷ [])
        ∷ []
        ∷ (24 ∷ [])
        ∷ []
        ∷ (24 ∷ 2 ∷ 3 ∷ 12 ∷ [])
        ∷ [] }
{}

/// Levels of class 0, of class 1, and of class 1 with a category: by which modes a subject may hold an object. Reading needs both
/// of its levels, writing its current one exactly, and appending goes up.
pub fn law_allowed()
    ensures read_up { is_simple Read low middle ≡ false }
    ensures read_above_current { is_star Read low middle ≡ false }
    ensures read { allows Read middle middle middle ≡ true }
    ensures read_down { allows Read middle middle low ≡ true }
    ensures read_marked { is_simple Read middle marked ≡ false }
    ensures execute_up { is_star Execute low middle ≡ false }
    ensures write_down { is_star Write middle low ≡ false }
    ensures write_up { is_star Write low middle ≡ false }
    ensures write { allows Write middle low low ≡ true }
    ensures append_down { is_star Append middle low ≡ false }
    ensures append_up { allows Append low low middle ≡ true }
{}

/// What a request spells, and which arguments are none: R1 and R2 010400 and 000000 are `/1`; a segment has 1 to 128 blocks, a
/// directory a quota of 1 to 3,904, and nobody creates a line.
pub fn law_arguments()
    ensures path { path_in (0 ∷ 0o10400 ∷ 0 ∷ 0 ∷ 0 ∷ 0 ∷ []) ≡ 1 ∷ [] }
    ensures kinds { map kind_from (0 ∷ 1 ∷ 2 ∷ []) ≡ Kind.Directory ∷ Kind.Segment ∷ Kind.Mailbox ∷ [] }
    ensures segments { map (λ blocks. is_no_object 1 blocks 0) (0 ∷ 1 ∷ 128 ∷ 129 ∷ []) ≡ true ∷ false ∷ false ∷ true ∷ [] }
    ensures directories { map (λ quota. is_no_object 0 0 quota) (0 ∷ 1 ∷ 3904 ∷ 3905 ∷ []) ≡ true ∷ false ∷ false ∷ true ∷ [] }
    ensures others { is_no_object 2 0 0 ≡ false }
    ensures blocks { is_no_object 2 1 0 ≡ true }
    ensures lines { is_no_object 3 0 0 ≡ true }
    ensures modes { map (is_outside 1 15) (0 ∷ 1 ∷ 15 ∷ 16 ∷ []) ≡ true ∷ false ∷ false ∷ true ∷ [] }
{}

/// Queues at their ends: the 16th message waits and the 17th is lost and counted, up to 65,535; what is taken counts anew; the 64th
/// byte of a line waits and the 65th is lost.
pub fn law_queues()
    ensures sixteenth { put (1 ∷ []) (Messages (replicate 15 []) 2) ≡ Messages (replicate 15 [] ++ (1 ∷ []) ∷ []) 2 }
    ensures lost { put (1 ∷ []) (Messages (replicate 16 []) 2) ≡ Messages (replicate 16 []) 3 }
    ensures last { put (1 ∷ []) (Messages (replicate 16 []) 65535) ≡ Messages (replicate 16 []) 65535 }
    ensures taken { without_message (Messages ((1 ∷ []) ∷ (2 ∷ []) ∷ []) 3) ≡ Messages ((2 ∷ []) ∷ []) 0 }
    ensures full { queued (replicate 64 7) 8 ≡ replicate 64 7 }
    ensures kept { queued (replicate 63 7) 8 ≡ replicate 63 7 ++ 8 ∷ [] }
    ensures byte { without_byte (Typed (104 ∷ 105 ∷ [])) ≡ Typed (105 ∷ []) }
{}
