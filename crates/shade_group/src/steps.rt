//! The step of a workgroup.

ghost use Rattle.std.specs.Prelude.{◌≡◌, ◌<◌, length, true, false, Some, None, IfOk, OnOk, OnErr, vec_len, vec_capacity};
ghost use Rattle.shade_group.specs.Group.{event as event_of, ordered as ordered_of, parted, parted_event, released_event, settled, settled_event, step as step_of, release_by, stuttered, least_unlike, all_wait as all_wait_of, all_ended as all_ended_of};
ghost use Rattle.shade_group.specs.Inside.{inside, state_at};
ghost use Rattle.shade_lane.specs.Members.{is_able as is_able_of, is_waiting as is_waiting_of};

use crate::event::GroupEvent;
use crate::lanes::{
    all_ended, all_wait, free, is_able, is_waiting, least_unlike_at, one_more, raised,
};
use crate::workgroup::Workgroup;
use shade_lane::LaneState;
use std::alloc::AllocError;

impl<'m> Workgroup<'m> {
    /// One step of the lane with this number, and what it was. Where memory is wanting the group is as before.
    pub(crate) fn step(&mut self, lane: u32) -> Result<GroupEvent, AllocError>
        requires { lane < length self.old.lanes.items }
        ensures ok { OnOk result (inside self.new ≡ step_of (inside self.old) lane) }
        ensures event { IfOk result (λ e. e ≡ event_of (inside self.old) lane) }
        ensures err { OnErr result (inside self.new ≡ inside self.old) }
        ensures lanes { length self.new.lanes.items ≡ length self.old.lanes.items }
    {
        self.released.reserve(1)?;
        let index = lane as usize;
        if self.diverged.is_some() || !is_able(self.lanes[index].state()) {
            self.stutter();
            return Ok(GroupEvent::Stutter);
        }
        self.lanes[index].step(&mut self.memory)?;
        self.steps = one_more(self.steps);
        Ok(self.settle(lane))
    }

    /// Counts a step that changes nothing else.
    fn stutter(&mut self)
        ensures machine { inside self.new ≡ stuttered (inside self.old) }
        ensures lanes { length self.new.lanes.items ≡ length self.old.lanes.items }
    {
        self.steps = one_more(self.steps);
        self.stutters = one_more(self.stutters);
    }

    /// What follows from the state that the lane with this number came to.
    fn settle(&mut self, number: u32) -> GroupEvent
        requires room { vec_len self.old.released < vec_capacity self.old.released }
        requires within { number < length self.old.lanes.items }
        ensures machine { inside self.new ≡ settled number (state_at self.old.lanes.items number) (inside self.old) }
        ensures event { result ≡ settled_event number (state_at self.old.lanes.items number) (inside self.old) }
        ensures lanes { length self.new.lanes.items ≡ length self.old.lanes.items }
    {
        if self.is_able_at(number) {
            return GroupEvent::Ran;
        }
        match self.unlike_at(number) {
            Some(other) => self.part(number, other),
            None => self.meet(number),
        }
    }

    /// What follows from the state that the lane with this number stopped in, where no stopped lane is unlike it.
    fn meet(&mut self, number: u32) -> GroupEvent
        requires room { vec_len self.old.released < vec_capacity self.old.released }
        requires within { number < length self.old.lanes.items }
        requires stopped { is_able_of (state_at self.old.lanes.items number) ≡ false }
        requires alike { least_unlike (state_at self.old.lanes.items number) (inside self.old).members ≡ None }
        ensures machine { inside self.new ≡ settled number (state_at self.old.lanes.items number) (inside self.old) }
        ensures event { result ≡ settled_event number (state_at self.old.lanes.items number) (inside self.old) }
        ensures lanes { length self.new.lanes.items ≡ length self.old.lanes.items }
    {
        if self.is_waiting_at(number) {
            if self.all_wait() {
                return self.release(number);
            }
            return GroupEvent::Ran;
        }
        if self.all_ended() {
            return GroupEvent::Ended;
        }
        GroupEvent::Ran
    }

    fn is_able_at(&self, number: u32) -> bool
        requires { number < length self.now.lanes.items }
        ensures { result ≡ is_able_of (state_at self.now.lanes.items number) }
    {
        is_able(self.lanes[number as usize].state())
    }

    fn is_waiting_at(&self, number: u32) -> bool
        requires { number < length self.now.lanes.items }
        ensures { result ≡ is_waiting_of (state_at self.now.lanes.items number) }
    {
        is_waiting(self.lanes[number as usize].state())
    }

    fn unlike_at(&self, number: u32) -> Option<u32>
        requires { number < length self.now.lanes.items }
        ensures { result ≡ least_unlike (state_at self.now.lanes.items number) (inside self.now).members }
    {
        least_unlike_at(&self.lanes, number)
    }

    fn all_wait(&self) -> bool
        ensures { result ≡ all_wait_of (inside self.now).members }
    {
        all_wait(&self.lanes)
    }

    pub(crate) fn all_ended(&self) -> bool
        ensures { result ≡ all_ended_of (inside self.now).members }
    {
        all_ended(&self.lanes)
    }

    /// Two lanes stopped unlike each other.
    fn part(&mut self, number: u32, other: u32) -> GroupEvent
        ensures machine { inside self.new ≡ parted number other (inside self.old) }
        ensures event { result ≡ parted_event number other }
        ensures lanes { length self.new.lanes.items ≡ length self.old.lanes.items }
    {
        let (one, two) = ordered(number, other);
        self.diverged = Some((one, two));
        GroupEvent::Diverged(one, two)
    }

    /// Releases all lanes, which wait at the instance of the lane with this number.
    fn release(&mut self, number: u32) -> GroupEvent
        requires room { vec_len self.old.released < vec_capacity self.old.released }
        requires within { number < length self.old.lanes.items }
        requires wait { all_wait_of (inside self.old).members ≡ true }
        ensures machine { inside self.new ≡ release_by (state_at self.old.lanes.items number) (inside self.old) }
        ensures event { result ≡ released_event (length self.old.released.items) }
        ensures lanes { length self.new.lanes.items ≡ length self.old.lanes.items }
    {
        let count = self.released.len() as u64;
        if let LaneState::Waiting(space, instance) = free(&mut self.lanes, number) {
            self.epochs = raised(self.epochs, space);
            let _ = self.released.push(instance);
        }
        GroupEvent::Released(count)
    }
}

/// Two numbers, the lesser first.
fn ordered(number: u32, other: u32) -> (u32, u32)
    ensures { result ≡ ordered_of number other }
{
    if other < number {
        (other, number)
    } else {
        (number, other)
    }
}
