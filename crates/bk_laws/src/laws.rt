ghost use Rattle.std.specs.Prelude.{◌≡◌, [], ◌∷◌, None, Some, false, true};
ghost use Rattle.bk_level.specs.Levels.{lowest};
ghost use Rattle.bk_object.specs.Modes.{Read};
ghost use Rattle.bk_object.specs.declared.Kind.TheVariants.{Mailbox as a_mailbox};
ghost use Rattle.bk_state.specs.Low.{low};
ghost use Rattle.bk_state.specs.Smallest.{only_process};
ghost use Rattle.bk_state.specs.State.{with_raised};
ghost use Rattle.bk_system.specs.Event.{Arrive as arrival};
ghost use Rattle.bk_laws.specs.Example.{byte_on, example, facts_with, higher, one_waits, turn_by};
ghost use Rattle.bk_laws.specs.Laws.{LawKept, LawLines, LawReached, LawRuns, LawSecure, LawSeen, LawUnseen};
ghost use Rattle.bk_laws.specs.Seen.{is_seen, seen_items};

/// Every event keeps a secure state secure, and keeps the fixed part; so all states that are reached from it are secure.
pub fn law_secure()
    ensures event { LawSecure }
    ensures reached { LawReached }
{}

/// An event that a level does not see leaves what lies under the level as it was, and tells nothing of it.
pub fn law_unseen()
    ensures { LawUnseen }
{}

/// An event that a level sees does the same in all secure states in which the same lies under the level.
pub fn law_seen()
    ensures { LawSeen }
{}

/// Two runs with the same seen events, from secure states in which the same lies under the level, end with the same under
/// it and tell the same of it. So a run from an image tells the same of a level as the run of the script without the bytes
/// typed on lines that are not under it, and its report has the same line records of the lines under it.
pub fn law_runs()
    ensures runs { LawRuns }
    ensures kept { LawKept }
    ensures lines { LawLines }
{}

/// Of the example the lower level sees its own subject alone, with its level and what it holds; that a mailbox stands below root,
/// and not that a message waits in it; nothing of what is below a directory of the higher level; and the events and the items of
/// its own subject and line alone, of the subject until it raises its level.
pub fn law_example()
    ensures own_subject { (low lowest example).process 0 ≡ Some only_process }
    ensures other_subject { (low lowest example).process 1 ≡ None }
    ensures own_level { (low lowest example).current 0 ≡ Some 0 }
    ensures other_level { (low lowest example).current 1 ≡ None }
    ensures own_access { (low lowest example).holds 0 [] Read ≡ true }
    ensures other_access { (low lowest example).holds 1 [] Read ≡ false }
    ensures mailbox { (low lowest example).facts (5 ∷ []) ≡ Some (facts_with a_mailbox 1 0) }
    ensures message { (low lowest example).contents (5 ∷ []) ≡ None }
    ensures message_above { (low higher example).contents (5 ∷ []) ≡ Some one_waits }
    ensures below { (low lowest example).facts (0 ∷ 6 ∷ []) ≡ None }
    ensures own_turn { is_seen lowest example (turn_by 0) ≡ true }
    ensures other_turn { is_seen lowest example (turn_by 1) ≡ false }
    ensures raised_turn { is_seen lowest (with_raised 0 (Some 1) example) (turn_by 0) ≡ false }
    ensures own_line { is_seen lowest example (arrival 0 []) ≡ true }
    ensures other_line { is_seen lowest example (arrival 1 []) ≡ false }
    ensures items { seen_items lowest example (byte_on 0 ∷ byte_on 1 ∷ []) ≡ byte_on 0 ∷ [] }
{}
