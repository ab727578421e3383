// What governs a directory, over anything that tells facts by path.

ghost use Rattle.std.specs.Prelude.{◌≡◌, ◌≢◌, ◌==◌, not, []};
ghost use Rattle.std.specs.FinMap.{FinMap};
ghost use Rattle.bk_object.specs.declared.Facts.{Facts as FactsValue};
ghost use Rattle.bk_object.specs.Kinds as kinds;
ghost use Rattle.bk_path.specs.Paths.{Path as PathValue, path_cmp, parent};
ghost use Rattle.bk_quota.specs.Charges.{facts_in, governing_in, is_upgraded_in, passes};

use bk_object::{Facts, Kind};
use bk_path::Path;

/// What tells the facts of the object at a path.
pub trait FactsByPath {
    /// What it keeps of an object.
    ghost Kept: { Type 0 };

    ghost facts_of: { Kept → FactsValue };

    /// The objects that it tells of.
    ghost objects: { Self → FinMap path_cmp Kept };

    /// The facts of the object at the path: None exactly where none is there.
    fn facts_at(&self, path: Path) -> Option<Facts>
        ensures { result ≡ facts_in facts_of (objects self.now) path };
}

/// The nearest of a directory and its ancestors that has a cell: root, or an upgraded directory.
pub fn governing<F: FactsByPath>(all: &F, path: Path) -> Path
    ensures { result ≡ governing_in F.facts_of (F.objects all.now) path }
{
    match path.parent() {
        Some(above) => {
            if is_upgraded(all, path, above) {
                path
            } else {
                governing(all, above)
            }
        }
        None => Path::root(),
    }
}

// Whether a directory of another level than its parent's is at the path.
fn is_upgraded<F: FactsByPath>(all: &F, path: Path, above: Path) -> bool
    requires below { path ≢ [] }
    requires parent { above ≡ parent path }
    ensures { result ≡ is_upgraded_in F.facts_of (F.objects all.now) path }
{
    match all.facts_at(path) {
        Some(facts) => is_directory(facts.kind) && has_other_level(all, above, facts.level),
        None => false,
    }
}

// Whether an object of another level is at the path.
fn has_other_level<F: FactsByPath>(all: &F, path: Path, level: u8) -> bool
    ensures { result ≡ passes (λ facts. not (facts.level == level)) (facts_in F.facts_of (F.objects all.now) path) }
{
    match all.facts_at(path) {
        Some(facts) => facts.level != level,
        None => false,
    }
}

fn is_directory(kind: Kind) -> bool
    ensures { result ≡ kinds.is_directory kind }
{
    match kind {
        Kind::Directory => true,
        Kind::Segment | Kind::Mailbox | Kind::Line(_) => false,
    }
}
