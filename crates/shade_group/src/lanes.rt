//! What is asked of all lanes, and done to all.

ghost use Rattle.std.specs.Prelude.{◌≡◌, ◌<◌, ◌≤◌, ◌^◌, length, map, slice_get, true, Some};
ghost use Rattle.std.specs.Cmp.Lexicographic.{pointwise};
ghost use Rattle.shade_group.specs.Group.{able_from, raised as raised_of, least_unlike as least_unlike_of, same_instance as same_instance_of, unlike as unlike_of};
ghost use Rattle.std.specs.List.{list_all};
ghost use Rattle.shade_base.specs.Counter.{one_more as one_more_of};
ghost use Rattle.shade_group.specs.Inside.{members_of, state_at};
ghost use Rattle.shade_lane.specs.Members.{freed, is_able as is_able_of, is_ended as is_ended_of, is_waiting as is_waiting_of};

use crate::event::Epochs;
use shade_lane::{Instance, Lane, LaneState};
use shade_values::Space;

/// Whether a lane may step.
pub(crate) fn is_able(state: &LaneState) -> bool
    ensures { result ≡ is_able_of state.now }
{
    match state {
        LaneState::Able => true,
        LaneState::Waiting(_, _) | LaneState::Ended => false,
    }
}

pub(crate) fn is_waiting(state: &LaneState) -> bool
    ensures { result ≡ is_waiting_of state.now }
{
    match state {
        LaneState::Waiting(_, _) => true,
        LaneState::Able | LaneState::Ended => false,
    }
}

fn is_ended(state: &LaneState) -> bool
    ensures { result ≡ is_ended_of state.now }
{
    match state {
        LaneState::Ended => true,
        LaneState::Able | LaneState::Waiting(_, _) => false,
    }
}

/// Whether two instances have the same words.
#[tactic(auto, using(crate::proofs::LaneLaws::same_words))]
fn same_instance(one: &Instance, other: &Instance) -> bool
    ensures { result ≡ same_instance_of one.now other.now }
{
    one.as_slice() == other.as_slice()
}

/// Whether two lanes stopped, and not alike.
fn unlike(one: &LaneState, other: &LaneState) -> bool
    ensures { result ≡ unlike_of one.now other.now }
{
    match (one, other) {
        (LaneState::Waiting(_, here), LaneState::Waiting(_, there)) => !same_instance(here, there),
        (LaneState::Waiting(_, _), LaneState::Ended) => true,
        (LaneState::Ended, LaneState::Waiting(_, _)) => true,
        (LaneState::Ended, LaneState::Ended) => false,
        (LaneState::Able, _) | (_, LaneState::Able) => false,
    }
}

/// The least lane that is unlike a state.
fn least_unlike(lanes: &[Lane], state: &LaneState) -> Option<u32>
    requires { length lanes.now < 2 ^ 32 }
    ensures { result ≡ least_unlike_of state.now (members_of lanes.now) }
{
    let mut number = 0;
    for lane in lanes {
        if unlike(state, lane.state()) {
            return Some(number);
        }
        number += 1;
    }
    None
}

/// The least lane that is unlike the lane with a number.
pub(crate) fn least_unlike_at(lanes: &[Lane], number: u32) -> Option<u32>
    requires few { length lanes.now < 2 ^ 32 }
    requires within { number < length lanes.now }
    ensures { result ≡ least_unlike_of (state_at lanes.now number) (members_of lanes.now) }
{
    least_unlike(lanes, lanes[number as usize].state())
}

/// How many lanes may step.
pub(crate) fn able_count(lanes: &[Lane]) -> u32
    requires { length lanes.now < 2 ^ 32 }
    ensures able { result ≡ length (able_from 0 (members_of lanes.now)) }
    ensures few { result ≤ length lanes.now }
{
    let mut count = 0;
    for lane in lanes {
        if is_able(lane.state()) {
            count += 1;
        }
    }
    count
}

/// The lane that may step at this place of those that may, by number.
pub(crate) fn able_at(lanes: &[Lane], k: u32) -> u32
    requires few { length lanes.now < 2 ^ 32 }
    requires within { k < length (able_from 0 (members_of lanes.now)) }
    ensures { slice_get (able_from 0 (members_of lanes.now)) k ≡ Some result }
{
    let mut left = k;
    let mut number = 0;
    for lane in lanes {
        if is_able(lane.state()) {
            if left == 0 {
                return number;
            }
            left -= 1;
        }
        number += 1;
    }
    number
}

/// Whether every lane waits.
pub(crate) fn all_wait(lanes: &[Lane]) -> bool
    ensures { result ≡ list_all (λ lane. is_waiting_of lane.state) lanes.now }
{
    lanes.iter().all(|lane| is_waiting(lane.state()))
}

/// Whether every lane ended.
pub(crate) fn all_ended(lanes: &[Lane]) -> bool
    ensures { result ≡ list_all (λ lane. is_ended_of lane.state) lanes.now }
{
    lanes.iter().all(|lane| is_ended(lane.state()))
}

/// Lets every lane step again, where all wait, and gives the state in which the lane with this number waited.
pub(crate) fn free(lanes: &mut Vec<Lane>, number: u32) -> LaneState
    requires within { number < length lanes.old.items }
    requires wait { list_all (λ lane. is_waiting_of lane.state) lanes.old.items ≡ true }
    ensures state { result ≡ state_at lanes.old.items number }
    ensures members { members_of lanes.new.items ≡ map freed (members_of lanes.old.items) }
    ensures len { length lanes.new.items ≡ length lanes.old.items }
{
    let mut waited = LaneState::Able;
    for index in 0..lanes.len() {
        let state = lanes[index].resume();
        if index == number as usize {
            waited = state;
        }
    }
    waited
}

/// A barrier of a space was passed once more.
pub(crate) fn raised(epochs: Epochs, space: Space) -> Epochs
    ensures { result ≡ raised_of space epochs }
{
    match space {
        Space::Workgroup => Epochs {
            workgroup: one_more(epochs.workgroup),
            storage: epochs.storage,
        },
        Space::Storage => Epochs {
            workgroup: epochs.workgroup,
            storage: one_more(epochs.storage),
        },
        Space::Function | Space::Private | Space::Uniform => epochs,
    }
}

/// One more, in a counter that stands still at its last number.
pub(crate) fn one_more(count: u64) -> u64
    ensures { result ≡ one_more_of count }
{
    count.saturating_add(1)
}
