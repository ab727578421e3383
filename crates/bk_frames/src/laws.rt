// Where two segments stand once there is no gap.

ghost use Rattle.std.specs.Prelude.{◌≡◌};
ghost use Rattle.bk_frames.specs.Extents.{free_in, moved_down, taken_in};
ghost use Rattle.bk_frames.specs.Example.{example, lower, upper};

/// Of eight blocks three are taken, by a segment of two blocks and one of one block with holes below them: without a gap
/// they stand from block 64 and from block 66 on.
pub fn law_example()
    ensures taken { taken_in example ≡ 3 }
    ensures free { free_in example ≡ 5 }
    ensures lower_down { moved_down example lower ≡ record { first = 64; blocks = 2 } }
    ensures upper_down { moved_down example upper ≡ record { first = 66; blocks = 1 } }
{}
