// Tests of what no clause says: that the calls succeed, with numbers worked out by hand, and a tree at its limit.

ghost use Rattle.std.specs.Prelude.{◌≡◌, ◌≢◌, ℕ, []};
ghost use Rattle.bk_object.specs.declared.Kind.TheVariants.{Directory};
ghost use Rattle.bk_object.specs.Rows.{empty_row};
ghost use Rattle.bk_tree.specs.Objects.{IsAt};

use crate::cells::Told;
use crate::{Tree, TreeNo};
use bk_object::{Facts, Kind, Row, Slot};
use bk_path::Path;
use bk_quota::law_governing;

fn facts(kind: Kind, quota: u16) -> Facts
    ensures { result ≡ record { kind = kind; blocks = 0; level = 0; quota = quota; row = empty_row } }
{
    Facts {
        kind,
        blocks: 0,
        level: 0,
        quota,
        row: Row::new(),
    }
}

// How many objects fill a tree.
const MANY: u16 = 400;

// Root with a limit of 3: 1 for root and 2 for a mailbox fill it, and the mailbox takes the second place.
#[test]
fn creates_counts_and_removes(rt: HostRuntime) {
    law_governing::<Told>();
    let mut tree = Tree::reserve(rt.alloc(), 3, facts(Kind::Directory, 3)).expect(&rt, "memory");
    let path = Path::root().child(5).expect(&rt, "one entry");
    let created = tree.create(path, facts(Kind::Mailbox, 0));
    assert_eq!(rt; created, Ok(Slot { n: 1 }));
    let root = tree.find(Path::root()).expect(&rt, "root");
    assert_eq!(rt; tree.facts(root).quota, 3);
    let cell = tree.cell(root);
    assert_eq!(rt; cell.limit(), 3);
    assert_eq!(rt; cell.used(), 3);
    tree.set_row(root, Row::new());
    let leaf = tree.next_leaf(path).expect(&rt, "the mailbox");
    assert_eq!(rt; leaf, Slot { n: 1 });
    tree.remove_leaf(leaf);
    assert_eq!(rt; tree.find(path), None);
}

// A directory one entry below another, at its level: what `create` answers, or None where no directory is there.
fn add(tree: &mut Tree, above: Path, entry: u8) -> Option<Result<Slot, TreeNo>> {
    match tree.find(above) {
        Some(slot) => {
            let held = tree.facts(slot);
            add_below(tree, above, held, entry)
        }
        None => None,
    }
}

// The facts of a directory at the level of another.
fn directory(held: Facts) -> Facts
    ensures { result ≡ record { kind = Directory; blocks = 0; level = held.level; quota = 0; row = empty_row } }
{
    Facts {
        kind: Kind::Directory,
        blocks: 0,
        level: held.level,
        quota: 0,
        row: Row::new(),
    }
}

fn add_below(tree: &mut Tree, above: Path, held: Facts, entry: u8) -> Option<Result<Slot, TreeNo>>
    requires { (slot : ℕ) × IsAt tree.old above slot held }
{
    match held.kind {
        Kind::Directory => match above.child(entry) {
            Some(path) => Some(tree.create(path, directory(held))),
            None => None,
        },
        Kind::Segment | Kind::Mailbox | Kind::Line(_) => None,
    }
}

// A directory with each entry below the path: whether all were created.
fn add_children(tree: &mut Tree, above: Path) -> bool {
    for entry in 0..16 {
        match add(tree, above, entry) {
            Some(Ok(_)) => {}
            _ => return false,
        }
    }
    true
}

fn add_grandchildren(tree: &mut Tree, above: Path) -> bool {
    for entry in 0..16 {
        match above.child(entry) {
            Some(path) => {
                if !add_children(tree, path) {
                    return false;
                }
            }
            None => return false,
        }
    }
    true
}

fn add_lowest(tree: &mut Tree, above: Path) -> bool {
    for entry in 0..16 {
        match above.child(entry) {
            Some(path) => {
                if !add_grandchildren(tree, path) {
                    return false;
                }
            }
            None => return false,
        }
    }
    true
}

// A directory below root, and three depths below it: whether all were created.
fn fill(tree: &mut Tree, group: Path) -> bool {
    let _answer = add(tree, Path::root(), 0);
    add_children(tree, group) && add_grandchildren(tree, group) && add_lowest(tree, group)
}

// The object and its inferiors go, leaf by leaf.
fn remove_group(tree: &mut Tree, group: Path)
    requires { group ≢ [] }
{
    for _ in 0..MANY {
        match tree.next_leaf(group) {
            Some(leaf) => tree.remove_leaf(leaf),
            None => return,
        }
    }
}

fn used_of_root(tree: &Tree) -> u16 {
    match tree.find(Path::root()) {
        Some(root) => tree.cell(root).used(),
        None => 0,
    }
}

// 400 directories, root among them, are as many as root's quota: one more is refused. All but root go as one group, and fit again.
#[test]
fn fills_root_and_empties_it_and_fills_it_again(rt: HostRuntime) {
    let mut tree = Tree::reserve(rt.alloc(), MANY, facts(Kind::Directory, MANY)).expect(
        &rt, "memory",
    );
    let group = Path::root().child(0).expect(&rt, "one entry");
    assert!(rt; !fill(&mut tree, group));
    assert_eq!(rt; used_of_root(&tree), MANY);
    let last = group.child(15).expect(&rt, "two entries");
    assert_eq!(rt; add(&mut tree, last, 15), Some(Err(TreeNo::Taken)));
    let lowest = last.child(15).expect(&rt, "three entries");
    assert_eq!(rt; add(&mut tree, lowest, 15), Some(Err(TreeNo::Quota)));
    remove_group(&mut tree, group);
    assert_eq!(rt; tree.find(group), None);
    assert_eq!(rt; used_of_root(&tree), 1);
    assert!(rt; !fill(&mut tree, group));
    assert_eq!(rt; used_of_root(&tree), MANY);
}
