ghost use Rattle.std.specs.Prelude.{◌≡◌, ◌⊎◌, true, [], ◌∷◌};
ghost use Rattle.std.specs.FinMap as map;
ghost use Rattle.bk_path.specs.Paths.{IsInferior, Path, path_cmp};
ghost use Rattle.bk_quota.specs.Charges.{governing_in, is_upgraded_in, used_in};
ghost use Rattle.bk_quota.specs.Example.{example};

use crate::by_path::FactsByPath;

/// What governs a directory is the longest of its prefixes that is root or an upgraded directory, in any map of values that
/// have facts.
pub fn law_governing<F: FactsByPath>()
    ensures prefix { (m : map.FinMap path_cmp F.Kept) (path : Path) → IsInferior path (governing_in F.facts_of m path) }
    ensures cell { (m : map.FinMap path_cmp F.Kept) (path : Path) →
        (governing_in F.facts_of m path ≡ []) ⊎ (is_upgraded_in F.facts_of m (governing_in F.facts_of m path) ≡ true) }
    ensures longest { (m : map.FinMap path_cmp F.Kept) (path between : Path) →
        IsInferior path between → is_upgraded_in F.facts_of m between ≡ true → IsInferior (governing_in F.facts_of m path) between }
{}

/// The cells of the example: a plain directory is governed by the nearest upgraded one, whose limit root's cell pays for.
pub fn law_example()
    ensures governing { governing_in (λ facts. facts) example (1 ∷ 1 ∷ []) ≡ 1 ∷ [] }
    ensures root { used_in (λ facts. facts) example [] ≡ 8 }
    ensures upgraded { used_in (λ facts. facts) example (1 ∷ []) ≡ 5 }
{}
