ghost use Rattle.std.specs.Prelude.{◌≡◌, ◌<◌};
ghost use Rattle.bk_space.specs.Counts.{counted_on};

/// One more, up to the last value of u64, at which a count stands.
#[inline(always)]
#[tactic(auto, unfolding(bk_space::specs::Counts::counted_on))]
pub(crate) fn one_more(count: u64) -> u64
    ensures value { result ≡ counted_on count 1 }
    ensures some { 0 < result }
{
    if count == u64::MAX { count } else { count + 1 }
}
