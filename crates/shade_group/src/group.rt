//! A workgroup between its steps.

ghost use Rattle.std.specs.Prelude.{◌≡◌, ℕ, ◌<◌, ◌≤◌, length, take, slice_get, Some, IfOk, OnOk, OnErr};
ghost use Rattle.std.specs.Option.{option_copied};
ghost use Rattle.shade_group.specs.Group.{able_lanes, event as event_of, HasAble, run, run_end_of, step as step_of, waiting_at};
ghost use Rattle.shade_group.specs.Inside.{inside};

use crate::event::{GroupEvent, RunEnd};
use crate::lanes::{able_at, able_count};
use crate::workgroup::Workgroup;
use shade_lane::LaneState;
use std::alloc::AllocError;

/// The lanes of a workgroup, which borrow the module that they run, with the memory that they share. Where the run is not
/// over, some lane may step.
#[derive(Drop)]
pub struct Group<'m> {
    pub(crate) workgroup: Workgroup<'m>,
    ghost able: { HasAble (inside workgroup) },
}

impl<'m> Group<'m> {
    ghost use Rattle.shade_group.specs.Seen.{machine_of};

    /// One step of the lane with this number, and what it was. Where memory is wanting the group is as before. After a divergence, or
    /// where every lane ended, it is a stutter (`runs_that_are_over_stutter`).
    pub fn step(&mut self, lane: u32) -> Result<GroupEvent, AllocError>
        requires { lane < length (machine_of self.old).members }
        ensures ok { OnOk result (machine_of self.new ≡ step_of (machine_of self.old) lane) }
        ensures event { IfOk result (λ e. e ≡ event_of (machine_of self.old) lane) }
        ensures err { OnErr result (machine_of self.new ≡ machine_of self.old) }
    {
        self.workgroup.step(lane)
    }

    /// The steps of a list of lane numbers. Where memory is wanting the group is as after the items before
    /// the one whose step found none.
    pub fn run_list(&mut self, numbers: &[u32]) -> Result<RunEnd, AllocError>
        requires { (i : ℕ) (n : ℕ) → slice_get numbers.now i ≡ Some n → n < length (machine_of self.old).members }
        ensures ok { OnOk result (machine_of self.new ≡ run (machine_of self.old) numbers.now) }
        ensures end { IfOk result (λ end. end ≡ run_end_of (machine_of self.new)) }
        ensures err { OnErr result ((n : ℕ) × (n < length numbers.now) × (machine_of self.new ≡ run (machine_of self.old) (take n numbers.now))) }
    {
        for number in numbers {
            self.step(*number)?;
        }
        Ok(self.state())
    }

    /// How the run stands; where it runs, some lane may step. Takes no memory.
    pub fn state(&self) -> RunEnd
        ensures end { result ≡ run_end_of (machine_of self.now) }
        ensures able { result ≡ RunEnd.Running → 1 ≤ length (able_lanes (machine_of self.now)) }
    {
        match self.workgroup.diverged {
            Some((one, other)) => RunEnd::Diverged(one, other),
            None => if self.workgroup.all_ended() {
                RunEnd::Ended
            } else {
                RunEnd::Running
            },
        }
    }

    /// How many steps were taken, with the stutters. Takes no memory.
    pub fn steps(&self) -> u64
        ensures { result ≡ (machine_of self.now).steps }
    {
        self.workgroup.steps
    }

    /// How many of the steps were stutters. Takes no memory.
    pub fn stutters(&self) -> u64
        ensures { result ≡ (machine_of self.now).stutters }
    {
        self.workgroup.stutters
    }

    /// How many instances were released. Takes no memory.
    pub fn released(&self) -> u64
        ensures { result ≡ length (machine_of self.now).released }
    {
        self.workgroup.released.len() as u64
    }

    /// The words of the released instance with this number, from 0. Takes no memory.
    pub fn released_at(&self, k: u64) -> &[u32]
        requires { k < length (machine_of self.now).released }
        ensures { slice_get (machine_of self.now).released k ≡ Some result.now }
    {
        self.workgroup.released[k as usize].as_slice()
    }

    /// How many lanes may step. Takes no memory.
    pub fn able_count(&self) -> u32
        ensures able { result ≡ length (able_lanes (machine_of self.now)) }
        ensures few { result ≤ 256 }
    {
        able_count(&self.workgroup.lanes)
    }

    /// The number of the lane at this place of those that may step, by number. Takes no memory.
    pub fn able_at(&self, k: u32) -> u32
        requires { k < length (able_lanes (machine_of self.now)) }
        ensures { slice_get (able_lanes (machine_of self.now)) k ≡ Some result }
    {
        able_at(&self.workgroup.lanes, k)
    }

    /// The words of the instance at which a lane waits, where it waits. Takes no memory.
    pub fn waiting(&self, lane: u32) -> Option<&[u32]>
        ensures { option_copied result ≡ waiting_at (machine_of self.now) lane }
    {
        match self.workgroup.lanes.get(lane as usize)?.state() {
            LaneState::Waiting(_, instance) => Some(instance.as_slice()),
            LaneState::Able | LaneState::Ended => None,
        }
    }

    /// How many lanes there are. Takes no memory.
    pub fn lanes(&self) -> u32
        ensures { result ≡ length (machine_of self.now).members }
    {
        self.workgroup.lanes.len() as u32
    }
}
