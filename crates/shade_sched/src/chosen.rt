//! The run that a stored function chooses.

ghost use Rattle.std.specs.Prelude.{◌≡◌, ◌<◌, ◌≤◌, true, false, IfOk, OnErr};
ghost use Rattle.shade_group.specs.Seen.{machine_of};
ghost use Rattle.shade_group.specs.Group.{run_end_of};
ghost use Rattle.shade_group.specs.declared.event.RunEnd.TheVariants as run_end;
ghost use Rattle.shade_sched.specs.Chosen.{end_of, IsChosenRun, IsCutRun, IsPicked};

use crate::chooser::{Chooser, Choosing};
use shade_group::{Group, RunEnd};
use std::alloc::AllocError;

/// How a run ended in which a function chose.
#[derive(Clone, Copy, Debug, PartialEq, Eq)]
pub enum ChosenEnd {
    /// Every lane ended.
    Ended,
    /// These two lanes stopped unlike each other, the lesser number first.
    Diverged(u32, u32),
    /// The limit was reached while lanes still ran.
    Spent,
}

/// Runs a group until it ended or diverged, or took so many steps. At each step, numbered from 0, the function is asked with the number of
/// lanes that may step, and the lane at that place of them steps: no step is a stutter (`chosen_lanes_act`).
/// Where memory is wanting the group is as after the steps before.
pub fn run<F: Choosing>(
    group: &mut Group,
    chooser: &Chooser<F>,
    limit: u64,
) -> Result<ChosenEnd, AllocError>
    ensures ok { IfOk result (λ end. IsChosenRun (F.gives chooser.now) limit (machine_of group.old) (machine_of group.new) end) }
    ensures err { OnErr result (IsCutRun (F.gives chooser.now) limit (machine_of group.old) (machine_of group.new)) }
{
    let mut step = 0u64;
    'steps: while goes_on(group, step, limit) {
        step_chosen(group, chooser, step)?;
        step += 1;
    }
    Ok(end_by(group.state()))
}

/// Whether the run is not over and its limit is not reached.
fn goes_on(group: &Group, step: u64, limit: u64) -> bool
    ensures runs { result ≡ true → (step < limit) × (run_end_of (machine_of group.now) ≡ run_end.Running) }
    ensures rests { result ≡ false → run_end_of (machine_of group.now) ≡ run_end.Running → limit ≤ step }
{
    match group.state() {
        RunEnd::Running => step < limit,
        RunEnd::Ended | RunEnd::Diverged(..) => false,
    }
}

/// One step of the lane that the function chooses.
fn step_chosen<F: Choosing>(
    group: &mut Group,
    chooser: &Chooser<F>,
    step: u64,
) -> Result<(), AllocError>
    requires { run_end_of (machine_of group.old) ≡ run_end.Running }
    ensures ok { IfOk result (λ _. IsPicked (F.gives chooser.now) step (machine_of group.old) (machine_of group.new)) }
    ensures err { OnErr result (machine_of group.new ≡ machine_of group.old) }
{
    let pick = chooser.pick(step, group.able_count());
    let lane = group.able_at(pick);
    group.step(lane)?;
    Ok(())
}

/// How the run ended, where it is not running or its limit is reached.
fn end_by(state: RunEnd) -> ChosenEnd
    ensures { result ≡ end_of state }
{
    match state {
        RunEnd::Running => ChosenEnd::Spent,
        RunEnd::Ended => ChosenEnd::Ended,
        RunEnd::Diverged(one, other) => ChosenEnd::Diverged(one, other),
    }
}
