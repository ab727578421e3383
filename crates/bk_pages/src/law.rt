ghost use Rattle.std.specs.Prelude.{◌≡◌, ◌≤◌, ℕ, List, Option, length};
ghost use Rattle.bk_space.specs.declared.address.TheConstants.{PAGES as pages};
ghost use Rattle.bk_path.specs.Paths.{Path};
ghost use Rattle.bk_state.specs.State.{State};
ghost use Rattle.bk_store.specs.Stands.{StandsFor};
ghost use Rattle.bk_system.specs.Space.{space_of};
ghost use Rattle.bk_machine.specs.Paged.{paged, shown_in};
ghost use Rattle.bk_pages.specs.Pages.{pages_for};

use bk_store::Store;

/// What the pages so set show is the space of the subject, in each state that the store stands for with the words of core: no
/// window beside what is held decides. (There are at most 32 windows.)
pub fn law_space(store: &Store)
    ensures { (words : List ℕ) (v : State) (subject : ℕ) (windows : List (Option Path)) → length windows ≤ pages →
        StandsFor store.now words v → shown_in (paged (pages_for store.now subject windows) words) ≡ space_of v subject windows }
{
    store.law_contents();
}
