// A path, kept as the two words that it is packed in.

ghost use Rattle.std.specs.Prelude.{◌≡◌, ◌≢◌, ◌≤◌, ◌<◌, ◌^◌, ◌+◌, ◌*◌, ◌⊎◌, ◌↔◌, ◌==◌, nat_lt, [], ◌∷◌, ℕ, List, length, reverse, take, drop};
ghost use Rattle.std.specs.Prelude.{Some, None, refl, slice_get, IsTrue, IsNone, IfSome, true, false};
ghost use Rattle.std.specs.List.{list_all};
ghost use Rattle.std.specs.Cmp;
ghost use Rattle.std.specs.declared.cmp.Ordering.TheVariants.{Less};
ghost use Rattle.bk_path.specs.Orders.{is_same_equiv, path_partial, path_total, ties-same};
ghost use Rattle.bk_path.specs.Keys.{key_of, past_of};
ghost use Rattle.std.specs.Ordering.{nat_cmp};
ghost use Rattle.bk_path.specs.Paths as model;
ghost use Rattle.bk_path.specs.Spelt.{Spells};

use std::cmp::Ordering;
use std::marker::Model;

/// At most 7 entries, each 0 to 15. No entry is root.
///
/// A clause sees it as the list of its entries, the last one first, so that the parent is the tail.
#[derive(Clone, Copy, Debug)]
pub struct Path {
    first: u16,
    second: u16,
}

impl Model for Path {
    ghost use Rattle.std.specs.Prelude.{ℕ, List};

    ghost Value = { List ℕ };

    ghost use Rattle.bk_path.specs.Packed.{IsPacked, path_of, packed, packed-path_of};

    ghost view = { path_of };

    ghost invariant = { IsPacked };

    ghost inverse = { packed };

    ghost inverse_ok = { packed-path_of };
}

impl PartialEq for Path {
    ghost eq = { model.is_same };

    ghost laws = { Cmp.partial_equiv_from_equiv is_same_equiv };

    fn eq(&self, other: &Path) -> bool {
        self.first == other.first && self.second == other.second
    }
}

impl Eq for Path {
    ghost laws = { is_same_equiv };
}

/// The order of lists from root on: a path comes before what it begins.
impl Ord for Path {
    ghost cmp = { model.path_cmp };

    ghost total = { path_total };

    ghost matches_partial_cmp = { λ p q. refl };

    ghost matches_eq = { λ p q. Prim.search (ties-same) };

    fn cmp(&self, other: &Path) -> Ordering {
        self.key().cmp(&other.key())
    }
}

impl PartialOrd for Path {
    ghost partial_cmp = { λ p q. Some (model.path_cmp p q) };

    ghost laws = { path_partial };

    fn partial_cmp(&self, other: &Path) -> Option<Ordering> {
        Some(self.cmp(other))
    }
}

impl Path {
    /// The path with no entries.
    pub fn root() -> Path
        ensures { result ≡ [] }
    {
        Path {
            first: 0,
            second: 0,
        }
    }

    /// The path with one more entry: None exactly at depth 7 or where the entry is over 15.
    pub fn child(self, entry: u8) -> Option<Path>
        ensures some { IfSome result (λ path. path ≡ entry ∷ self) }
        ensures none { IsNone result ↔ ((length self ≡ 7) ⊎ (16 ≤ entry)) }
    {
        let depth = self.depth();
        if depth == 7 || entry > 15 {
            return None;
        }
        let mut entries = self.entries();
        entries[depth as usize] = entry;
        Some(Path::from_entries(entries, depth + 1))
    }

    /// The path without its last entry: None exactly for root.
    pub fn parent(self) -> Option<Path>
        ensures some { IfSome result (λ path. path ≡ model.parent self) }
        ensures none { IsNone result ↔ (self ≡ []) }
    {
        let depth = self.depth();
        if depth == 0 {
            return None;
        }
        let mut entries = self.entries();
        entries[depth as usize - 1] = 0;
        Some(Path::from_entries(entries, depth - 1))
    }

    /// The path without its last entry; root stays root.
    pub fn above(self) -> Path
        ensures { result ≡ model.parent self }
    {
        self.parent().unwrap_or(self)
    }

    /// Whether the path is root.
    pub fn is_root(self) -> bool
        ensures { result ≡ model.is_root self }
    {
        self.depth() == 0
    }

    /// The number by which paths are ordered: the seven entries in four bits each, root first, with zeros past the depth, in 28
    /// bits; then the depth in 3. So the numbers of a path and of all its inferiors stand together, and a parent's comes before
    /// its children's.
    pub fn key(self) -> u32
        ensures value { result ≡ key_of self }
        ensures path { model.IsPath self }
    {
        (u32::from(self.first % 4096) * 65536 + u32::from(self.second)) * 8
            + u32::from(self.first / 4096)
    }

    /// The first number past those of the path and its inferiors.
    pub fn past(self) -> u32
        ensures { result ≡ past_of self }
    {
        let size = 1u32 << (28 - 4 * u32::from(self.depth()));
        (self.key() / 8 + size) * 8
    }

    /// How many entries the path has.
    pub fn depth(self) -> u8
        ensures value { result ≡ length self }
        ensures seven { result ≤ 7 }
    {
        (self.first / 4096) as u8
    }

    /// The entry with that number from root on: None exactly from the depth on.
    pub fn entry(self, n: u8) -> Option<u8>
        ensures { result ≡ slice_get (reverse self) n }
    {
        if n < self.depth() {
            Some(self.entries()[n as usize])
        } else {
            None
        }
    }

    /// Whether the path begins with the other. Each path is inferior to itself and to root.
    pub fn is_inferior(self, of: Path) -> bool
        ensures value { result ≡ model.is_inferior self of }
        ensures fact { IsTrue result ↔ model.IsInferior self of }
    {
        let key = self.key();
        of.key() <= key && key < of.past()
    }

    /// The two words of the path: the depth in bits 15 to 12 of the first, then the entries in four bits each.
    pub fn pack(self) -> (u16, u16)
        ensures value { result ≡ model.pack self }
        ensures back { model.unpack result.0 result.1 ≡ Some self }
        ensures path { model.IsPath self }
    {
        (self.first, self.second)
    }

    /// The path that the two words are packed from: None exactly where no path packs so.
    pub fn unpack(first: u16, second: u16) -> Option<Path>
        ensures value { result ≡ model.unpack first second }
        ensures some { IfSome result (λ path. model.pack path ≡ (first, second)) }
        ensures none { IsNone result → (path : List ℕ) → model.IsPath path → model.pack path ≢ (first, second) }
    {
        let depth = (first / 4096) as usize;
        if depth > 7 {
            return None;
        }
        let entries = entries_of(first, second);
        if is_zero(&entries[depth..]) {
            Some(Path { first, second })
        } else {
            None
        }
    }

    // The entries, root first, and zeros from the depth on.
    fn entries(self) -> [u8; 7]
        ensures { Spells result self }
    {
        entries_of(self.first, self.second)
    }

    // The path of the first `depth` entries, where the others are zeros.
    fn from_entries(entries: [u8; 7], depth: u8) -> Path
        requires depth { depth ≤ 7 }
        requires small { list_all (λ entry. nat_lt entry 16) entries ≡ true }
        requires zeros { list_all (λ entry. entry == 0) (drop depth entries) ≡ true }
        ensures { result ≡ reverse (take depth entries) }
    {
        let [a, b, c, d, e, f, g] = entries;
        Path {
            first: word(depth, a, b, c),
            second: word(d, e, f, g),
        }
    }
}

/// Prefixes, parents and children of paths, as lists: a path is inferior to another exactly where the other's entries, from
/// root on, are its front.
pub fn law_paths()
    ensures prefix { (path of : List ℕ) → model.IsInferior path of ↔ (take (length of) (reverse path) ≡ reverse of) }
    ensures transitive { (a b c : List ℕ) → model.IsInferior a b → model.IsInferior b c → model.IsInferior a c }
    ensures parent_of_child { (entry : ℕ) (path : List ℕ) → model.parent (entry ∷ path) ≡ path }
    ensures child_of_parent { (path : List ℕ) → path ≢ [] → (entry : ℕ) × (entry ∷ model.parent path ≡ path) }
{}

/// Packing and unpacking are inverse, and packing is injective.
pub fn law_packing()
    ensures back { (path : List ℕ) → model.IsPath path → model.unpack (model.pack path).0 (model.pack path).1 ≡ Some path }
    ensures only { (first second : ℕ) (path : List ℕ) → first < 2 ^ 16 → second < 2 ^ 16 →
        model.unpack first second ≡ Some path → (model.pack path ≡ (first, second)) × model.IsPath path }
    ensures injective { (p q : List ℕ) → model.IsPath p → model.IsPath q → model.pack p ≡ model.pack q → p ≡ q }
{}

/// Paths order as their numbers do, and a path's inferiors are those whose numbers stand from its own on and below its bound.
pub fn law_keys()
    ensures order { (p q : List ℕ) → model.IsPath p → model.IsPath q → nat_cmp (key_of p) (key_of q) ≡ model.path_cmp p q }
    ensures inferior { (p of : List ℕ) → model.IsPath p → model.IsPath of → model.is_inferior p of ≡ true → (key_of of ≤ key_of p) × (key_of p < past_of of) }
    ensures between { (p of : List ℕ) → model.IsPath p → model.IsPath of → key_of of ≤ key_of p → key_of p < past_of of → model.is_inferior p of ≡ true }
{}

/// `/1` packs to 010400, 000000, and the deepest path of 15s fills both words but for the top bit; an entry past the depth
/// is no path. `/` comes before `/0`, and `/0/0` before `/1`, which is superior to `/1/2` and not to `/2/1`.
pub fn law_example()
    ensures packed { model.pack (1 ∷ []) ≡ (4352, 0) }
    ensures deepest { model.pack (15 ∷ 15 ∷ 15 ∷ 15 ∷ 15 ∷ 15 ∷ 15 ∷ []) ≡ (32767, 65535) }
    ensures unpacked { model.unpack 4352 0 ≡ Some (1 ∷ []) }
    ensures stray { model.unpack 4353 0 ≡ None }
    ensures root_first { model.path_cmp [] (0 ∷ []) ≡ Less }
    ensures by_entries { model.path_cmp (0 ∷ 0 ∷ []) (1 ∷ []) ≡ Less }
    ensures inferior { model.is_inferior (2 ∷ 1 ∷ []) (1 ∷ []) ≡ true }
    ensures apart { model.is_inferior (1 ∷ 2 ∷ []) (1 ∷ []) ≡ false }
{}

// Four numbers below 16, the first in bits 15 to 12.
fn word(a: u8, b: u8, c: u8, d: u8) -> u16
    requires a { a < 16 }
    requires b { b < 16 }
    requires c { c < 16 }
    requires d { d < 16 }
    ensures { result ≡ 4096 * a + 256 * b + 16 * c + d }
{
    4096 * u16::from(a) + 256 * u16::from(b) + 16 * u16::from(c) + u16::from(d)
}

// The seven entries of two words.
fn entries_of(first: u16, second: u16) -> [u8; 7]
    ensures { result ≡ model.entries_of first second }
{
    [
        (first / 256 % 16) as u8,
        (first / 16 % 16) as u8,
        (first % 16) as u8,
        (second / 4096) as u8,
        (second / 256 % 16) as u8,
        (second / 16 % 16) as u8,
        (second % 16) as u8,
    ]
}

// Whether all the entries are 0.
fn is_zero(entries: &[u8]) -> bool
    ensures { result ≡ list_all (λ entry. entry == 0) entries.now }
{
    entries.iter().all(|entry| *entry == 0)
}

#[cfg(test)]
mod tests {
    use super::Path;

    // Two words, in octal, that no path is packed in: a depth of 8, an entry past the depth in the first word, in the second
    // word, and below root.
    #[test]
    fn other_words_are_no_path(rt: HostRuntime) {
        let rows = [
            (0o100000, 0o000000),
            (0o177777, 0o177777),
            (0o010420, 0o000000),
            (0o010401, 0o000000),
            (0o030421, 0o010000),
            (0o060421, 0o010421),
            (0o000400, 0o000000),
            (0o000000, 0o000001),
        ];
        for (first, second) in rows {
            assert_eq!(rt; Path::unpack(first, second), None);
        }
    }

    // `/1` is 010400, 000000; seven entries of 15 fill both words.
    #[test]
    fn packs_entries_from_the_top(rt: HostRuntime) {
        let one = Path::root().child(1).expect(&rt, "one entry");
        assert_eq!(rt; one.pack(), (0o010400, 0o000000));
        assert_eq!(rt; Path::unpack(0o010400, 0o000000), Some(one));
        let mut path = Path::root();
        for _ in 0..7 {
            path = path.child(15).expect(&rt, "at most seven entries");
        }
        assert_eq!(rt; path.pack(), (0o077777, 0o177777));
        assert_eq!(rt; path.child(0), None);
        assert_eq!(rt; one.child(16), None);
        assert_eq!(rt; one.entry(0), Some(1));
        assert_eq!(rt; one.entry(1), None);
        assert_eq!(rt; one.parent(), Some(Path::root()));
        assert_eq!(rt; Path::root().parent(), None);
    }

    // A path comes before what it begins: `/`, `/0`, `/0/0`, `/1`. The words order otherwise.
    #[test]
    fn orders_as_lists(rt: HostRuntime) {
        let paths = [
            Path::unpack(0o000000, 0),
            Path::unpack(0o010000, 0),
            Path::unpack(0o020000, 0),
            Path::unpack(0o010400, 0),
        ];
        assert!(rt; paths[0] < paths[1]);
        assert!(rt; paths[1] < paths[2]);
        assert!(rt; paths[2] < paths[3]);
    }
}
