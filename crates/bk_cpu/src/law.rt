ghost use Rattle.std.specs.Prelude.{◌≡◌, ◌-◌, ◌^◌};
ghost use Rattle.bk_space.specs.Counts.{counted_on};

/// A count of references that has come to the last value of its 64 bits stands there.
#[tactic(auto, unfolding(bk_space::specs::Counts::counted_on))]
pub fn law_example_of_counts()
    ensures last_but_one { counted_on (2 ^ 64 - 2) 1 ≡ 2 ^ 64 - 1 }
    ensures last { counted_on (2 ^ 64 - 1) 1 ≡ 2 ^ 64 - 1 }
{}
