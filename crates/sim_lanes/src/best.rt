//! The lane that visited the most goals.

ghost use Rattle.std.specs.Prelude.{◌≡◌, ◌<◌, length, map, get_or};
ghost use Rattle.std.specs.List.{range_with_len};
ghost use Rattle.sim_batch.specs.Best.{IsBest};
ghost use Rattle.sim_lanes.specs.Lanes.{goals_seen};

use sim_batch::lane_bit;

/// How many goals a lane visited.
fn goals_seen(seen: &[u64], lane: u32) -> usize
    requires { lane < 64 }
    ensures { result ≡ goals_seen seen.now lane }
{
    let mut count = 0;
    for place in 0..seen.len() {
        let is_seen = lane_bit(seen[place], lane);
        count += usize::from(is_seen);
    }
    count
}

/// The lane that visited the most goals, and of these the first.
pub(crate) fn best_lane(seen: &[u64]) -> u32
    ensures { IsBest (map (goals_seen seen.now) (range_with_len 0 64)) result }
{
    let mut best = 0;
    let mut most = goals_seen(seen, 0);
    for lane in 1..64u32 {
        let count = goals_seen(seen, lane);
        if most < count {
            best = lane;
            most = count;
        }
    }
    best
}
