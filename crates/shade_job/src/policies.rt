//! Schedules, and what they pick.

ghost use Rattle.std.specs.Prelude.{◌≡◌, ◌%◌, ◌≤◌, ◌<◌, length, slice_index};
ghost use Rattle.shade_job.specs.Policies.{CanPick, mixed, pick};

use sqlite_items::Items;

/// A list of numbers: of lanes, or of places among lanes.
pub type StepList = Items<u32>;

/// Which lane takes each step.
#[derive(Drop)]
pub enum Schedule {
    /// The first able lane.
    Lanes,
    /// The able lanes in turn.
    Round,
    /// An able lane by numbers that look random, which begin with this one.
    Seed(u64),
    /// An able lane by these numbers, over and over.
    Picks(StepList),
    /// These lanes, whether they are able or not.
    List(StepList),
}

/// Gives the upper 31 bits of one step of a linear congruential generator. Takes no memory.
pub fn mix(seed: u64, step: u64) -> u32
    ensures { result ≡ mixed seed step }
{
    let next = seed
        .wrapping_add(step)
        .wrapping_mul(6_364_136_223_846_793_005)
        .wrapping_add(1_442_695_040_888_963_407);
    (next >> 33) as u32
}

/// Gives the place of the lane of a turn through all. Takes no memory.
pub fn pick_in_turn(step: u64, count: u32) -> u32
    requires { 1 ≤ count }
    ensures { result ≡ step % count }
{
    (step % u64::from(count)) as u32
}

/// Gives the place of the lane that a seed picks at a step. Takes no memory.
pub fn pick_by_seed(seed: u64, step: u64, count: u32) -> u32
    requires { 1 ≤ count }
    ensures { result ≡ mixed seed step % count }
{
    mix(seed, step) % count
}

/// Gives the place of the lane that a list of picks picks at a step. Takes no memory.
pub fn pick_by_list(picks: &[u32], step: u64, count: u32) -> u32
    requires any { 1 ≤ count }
    requires some { 1 ≤ length picks.now }
    ensures { result ≡ slice_index picks.now (step % length picks.now) % count }
{
    picks[(step % picks.len() as u64) as usize] % count
}

impl Schedule {
    /// Gives the place, among so many able lanes, of the lane that takes a step. Takes no memory.
    pub fn pick(&self, step: u64, count: u32) -> u32
        requires any { 1 ≤ count }
        requires policy { CanPick self.now }
        ensures value { result ≡ pick self.now step count }
        ensures below { result < count }
    {
        match self {
            Schedule::Lanes | Schedule::List(_) => 0,
            Schedule::Round => pick_in_turn(step, count),
            Schedule::Seed(seed) => pick_by_seed(*seed, step, count),
            Schedule::Picks(picks) => pick_by_list(picks.as_slice(), step, count),
        }
    }
}
