// Laws of images, as lists of bytes.
ghost use Rattle.std.specs.Prelude.{[], ◌∷◌, ◌+◌, ◌*◌, ◌<◌, ◌≤◌, ◌↔◌, true, false, get_or, length, IsTrue, Ok};
ghost use Rattle.std.specs.List.{list_all};
ghost use Rattle.bk_level.specs.Levels.{Level, has_only_below};
ghost use Rattle.bk_level.specs.Masks.{categories_of};
ghost use Rattle.bk_object.specs.Pairs.{split_pairs};
ghost use Rattle.bk_object.specs.Rows.{in_row};
ghost use Rattle.bk_image.specs.declared.version.Version.TheVariants.{One, Two};
ghost use Rattle.bk_image.specs.Numbers.{word};
ghost use Rattle.bk_image.specs.Objects.{row_of};
ghost use Rattle.bk_image.specs.Subjects.{after_levels, level_of};
ghost use Rattle.bk_image.specs.Versions.{level_size, record_size, subjects_of, version_for, version_number};
ghost use Rattle.bk_object.specs.Modes.{only, Write};
ghost use Rattle.bk_object.specs.declared.kind.Kind.TheVariants.{Line};
ghost use Rattle.bk_image.specs.Example.{high, low};
ghost use Rattle.bk_image.specs.Holds.{fits_ss, fits_star};
ghost use Rattle.bk_image.specs.Spelling.{hold_bytes, kind_bytes, level_bytes, spelling, window_bytes};
ghost use Rattle.std.specs.Prelude.{◌≡◌, ◌++◌, ℕ, List};
ghost use Rattle.bk_state.specs.declared.image.Image.{Image};
ghost use Rattle.bk_image.specs.Image.{IsImage, image_of};

/// No image's bytes are a proper prefix of another's. So in bytes with a script behind the image, the image ends at one
/// place alone.
pub fn law_no_prefix()
    ensures { (a b more : List ℕ) (v w : Image) → IsImage a v → IsImage b w → b ≡ a ++ more → (b ≡ a) × (v ≡ w) }
{}

/// Each value is written in one version, and has one spelling there: the number in the header of an image that was read is
/// that of the version for its value, which is 1 exactly where there are at most 32 subjects and each category is below 16.
/// And what is spelt in version 1 means what it meant before there was another: a level has one word of categories, a row 32
/// sets, and nothing more is checked.
#[tactic(auto, unfolding(crate::specs::Subjects::after_levels))]
pub fn law_version()
    ensures one { (bytes : List ℕ) (image : Image) (n : ℕ) → ((i : ℕ) → get_or bytes i 0 < 256) → image_of bytes ≡ Ok (image, n) → word bytes 4 ≡ version_number (version_for image) }
    ensures alone { (bytes : List ℕ) (image : Image) → ((i : ℕ) → get_or bytes i 0 < 256) → IsImage bytes image → bytes ≡ spelling image }
    ensures first { (image : Image) → (version_for image ≡ One) ↔ ((length image.subjects ≤ 32) × IsTrue (list_all (has_only_below 16) image.levels)) }
    ensures sizes { (level_size One ≡ 4) × (record_size One ≡ 28) × (subjects_of One ≡ 32) }
    ensures level { (class second low high : ℕ) → level_of (class ∷ second ∷ low ∷ high ∷ []) ≡ record { class = class; categories = categories_of (low + 256 * high) } }
    ensures row { (pairs : List ℕ) (subject : ℕ) → in_row (row_of pairs) subject ≡ in_row (split_pairs pairs) subject }
    ensures passes { (subjects : ℕ) (levels : List Level) → after_levels One subjects levels ≡ Ok tt }
{}

/// Parts as bytes, worked out by hand; and w, by which a subject may hold what is at its current level and nothing below it.
#[tactic(auto, unfolding(crate::specs::Spelling::path_bytes, crate::specs::Spelling::kind_bytes))]
pub fn law_example()
    ensures level { level_bytes One (record { class = 2; categories = 0 ∷ 9 ∷ [] }) ≡ 2 ∷ 0 ∷ 1 ∷ 2 ∷ [] }
    ensures wide { level_bytes Two (record { class = 2; categories = 0 ∷ 17 ∷ 47 ∷ [] }) ≡ 2 ∷ 0 ∷ 1 ∷ 0 ∷ 2 ∷ 0 ∷ 0 ∷ 128 ∷ [] }
    ensures window { window_bytes (record { index = 5; path = 3 ∷ 1 ∷ [] }) ≡ 5 ∷ 48 ∷ 33 ∷ 0 ∷ 0 ∷ [] }
    ensures line { kind_bytes (record { kind = Line 3; blocks = 0; level = 1; quota = 0; row = [] }) ≡ 3 ∷ 3 ∷ 1 ∷ 0 ∷ [] }
    ensures hold { hold_bytes (record { subject = 1; modes = only Write; path = 1 ∷ [] }) ≡ 1 ∷ 4 ∷ 0 ∷ 17 ∷ 0 ∷ 0 ∷ [] }
    ensures same { fits_star (only Write) high high ≡ true }
    ensures below { fits_ss (only Write) high low ≡ true }
    ensures not_below { fits_star (only Write) high low ≡ false }
{}
