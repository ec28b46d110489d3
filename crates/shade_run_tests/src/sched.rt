//! Runs of two lanes in which a function chooses.

ghost use Rattle.std.specs.Prelude.{◌≡◌, ℕ, ◌%◌, ◌≤◌};
ghost use Rattle.shade_sched.specs.Choosers.{Chooses};

use crate::group::begin;
use shade_base::Severity;
use shade_core::CoreModule;
use shade_group::Group;
use shade_samples::{BarrierAt, branching};
use shade_sched::{Chooser, Choosing, ChosenEnd, run};
use shade_values::Op;
use std::alloc::AllocError;
use std::test::Fail;

/// The run that a function chooses, which is kept from here on.
fn run_by<F: Choosing + Drop>(
    function: F,
    group: &mut Group,
    limit: u64,
) -> Result<ChosenEnd, AllocError>
    requires { Chooses F.may F.gives function }
{
    run(group, &Chooser::new(function), limit)
}

/// Each step is of the first lane that may step.
fn run_in_order(group: &mut Group, limit: u64) -> Result<ChosenEnd, AllocError> {
    run_by(|_step: u64, _count: u32| 0u32, group, limit)
}

/// The lanes that may step take turns.
fn run_in_turns(group: &mut Group, limit: u64) -> Result<ChosenEnd, AllocError> {
    run_by(
        |step: u64, count: u32| -> u32
            requires { 1 ≤ count }
            ensures { result ≡ step % count }
        { (step % u64::from(count)) as u32 },
        group,
        limit,
    )
}

/// Limits, each with how the run ends and the steps that it takes, in both orders.
const RUNS: &[(BarrierAt, u64, ChosenEnd, u64)] = &[
    (BarrierAt::After, 0, ChosenEnd::Spent, 0),
    (BarrierAt::After, 7, ChosenEnd::Spent, 7),
    (BarrierAt::After, 8, ChosenEnd::Ended, 8),
    (BarrierAt::After, 100, ChosenEnd::Ended, 8),
    (BarrierAt::Within, 5, ChosenEnd::Spent, 5),
    (BarrierAt::Within, 6, ChosenEnd::Diverged(0, 1), 6),
    (BarrierAt::Within, 100, ChosenEnd::Diverged(0, 1), 6),
];

#[test]
fn runs(rt: HostRuntime) -> Result<(), Fail> {
    let alloc = rt.alloc();
    for (stands, limit, end, steps) in RUNS {
        let module = branching(alloc, Op::Less, Severity::Warning, *stands)?;
        let mut group = begin(&rt, alloc, &module)?;
        assert_eq!(rt; run_in_order(&mut group, *limit)?, *end, "{limit}");
        assert_eq!(rt; group.steps(), *steps, "{limit}");
        assert_eq!(rt; group.stutters(), 0, "{limit}");
        let mut group = begin(&rt, alloc, &module)?;
        assert_eq!(rt; run_in_turns(&mut group, *limit)?, *end, "{limit}");
        assert_eq!(rt; group.steps(), *steps, "{limit}");
        assert_eq!(rt; group.stutters(), 0, "{limit}");
    }
    Ok(())
}
