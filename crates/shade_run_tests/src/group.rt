//! Lists of steps of two lanes, and what each step does.

ghost use Rattle.std.specs.Prelude.{◌≡◌, ℕ, ◌<◌, [], true, is_some, Some, length, nat_lt, slice_get};
ghost use Rattle.std.specs.List.{list_all};
ghost use Rattle.shade_group.specs.Seen.{machine_of};
ghost use Rattle.shade_mem.specs.Inputs.{size_of};

use shade_base::Severity;
use shade_core::CoreModule;
use shade_group::{Group, GroupEvent, RunEnd, is_runnable};
use shade_mem::Inputs;
use shade_samples::{BarrierAt, branching};
use shade_values::Op;
use sqlite_items::Items;
use std::alloc::{AllocError, Global};
use std::process::Abort;
use std::test::Fail;

/// The first workgroup of one in each direction, at its start.
pub fn begin<'m>(
    rt: &impl Abort,
    alloc: Global,
    module: &'m CoreModule,
) -> Result<Group<'m>, AllocError>
    requires roots { «module».now.roots ≡ [] }
    requires entry { is_some (size_of «module».now 0) ≡ true }
{
    let inputs = Inputs {
        entry: 0,
        groups: [1, 1, 1],
        group: [0, 0, 0],
        words: Items::new(alloc),
    };
    assert!(rt; is_runnable(module, 0));
    Group::begin(alloc, module, &inputs)
}

/// Whether all numbers are below a count.
fn all_below(numbers: &[u32], count: u32) -> bool
    ensures { result ≡ list_all (λ n. nat_lt n count) numbers.now }
{
    numbers.iter().all(|number| *number < count)
}

/// Whether all numbers are those of lanes.
fn are_lanes(group: &Group, numbers: &[u32]) -> bool
    ensures { result ≡ true → (i : ℕ) (n : ℕ) → slice_get numbers.now i ≡ Some n → n < length (machine_of group.now).members }
{
    all_below(numbers, group.lanes())
}

/// Lists of steps, each with how the run stands, and its steps and stutters.
const LISTS: &[(&[u32], RunEnd, u64, u64)] = &[
    (&[], RunEnd::Running, 0, 0),
    (&[0, 0, 0, 0, 1, 1, 1, 0, 1], RunEnd::Ended, 9, 1),
    (&[0, 0, 0, 1, 1, 1, 0, 1, 1, 0], RunEnd::Ended, 10, 2),
];

#[test]
fn lists_of_steps(rt: HostRuntime) -> Result<(), Fail> {
    let alloc = rt.alloc();
    let module = branching(alloc, Op::Less, Severity::Warning, BarrierAt::After)?;
    for (numbers, end, steps, stutters) in LISTS {
        let mut group = begin(&rt, alloc, &module)?;
        assert!(rt; are_lanes(&group, numbers), "{numbers:?}");
        assert_eq!(rt; group.run_list(numbers)?, *end, "{numbers:?}");
        assert_eq!(rt; group.steps(), *steps, "{numbers:?}");
        assert_eq!(rt; group.stutters(), *stutters, "{numbers:?}");
        if group.released() > 0 {
            assert_eq!(rt; group.released(), 1, "{numbers:?}");
            assert_eq!(rt; group.released_at(0), [0, 2, 0].as_slice(), "{numbers:?}");
        } else {
            assert_eq!(rt; *steps, 0, "{numbers:?}");
        }
    }
    Ok(())
}

/// Steps of lanes with what each does, by where the barrier stands.
const EVENTS: &[(BarrierAt, &[(u32, GroupEvent)])] = &[
    (
        BarrierAt::After,
        &[
            (0, GroupEvent::Ran),
            (0, GroupEvent::Ran),
            (0, GroupEvent::Ran),
            (0, GroupEvent::Stutter),
            (1, GroupEvent::Ran),
            (1, GroupEvent::Ran),
            (1, GroupEvent::Released(0)),
            (1, GroupEvent::Ran),
            (0, GroupEvent::Ended),
        ],
    ),
    (
        BarrierAt::Within,
        &[
            (0, GroupEvent::Ran),
            (0, GroupEvent::Ran),
            (0, GroupEvent::Ran),
            (1, GroupEvent::Ran),
            (1, GroupEvent::Ran),
            (1, GroupEvent::Diverged(0, 1)),
            (1, GroupEvent::Stutter),
        ],
    ),
];

#[test]
fn events(rt: HostRuntime) -> Result<(), Fail> {
    let alloc = rt.alloc();
    for (stands, steps) in EVENTS {
        let module = branching(alloc, Op::Less, Severity::Warning, *stands)?;
        let mut group = begin(&rt, alloc, &module)?;
        for (lane, event) in *steps {
            assert!(rt; *lane < group.lanes());
            assert_eq!(rt; group.step(*lane)?, *event, "{lane}");
        }
    }
    Ok(())
}
