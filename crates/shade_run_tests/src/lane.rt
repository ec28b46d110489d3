//! The steps of one lane.

ghost use Rattle.std.specs.Prelude.{◌≡◌, ℕ, ◌<◌, ◌^◌, slice_get, true, Some};
ghost use Rattle.shade_core.specs.declared.module.CoreFunction.{CoreFunction as TheFunction};
ghost use Rattle.shade_core.specs.Rules.{has_rules as has_rules_of};
ghost use Rattle.shade_lane.specs.Lane.{global_part};
ghost use Rattle.shade_lane.specs.Members.{is_able as is_able_of};

use shade_base::Severity;
use shade_core::{CoreModule, has_rules};
use shade_lane::{Builtins, Lane, LaneEvent, LaneState};
use shade_mem::Memory;
use shade_samples::{BarrierAt, branching};
use shade_values::Op;
use sqlite_items::Items;
use std::test::Fail;

/// The surroundings of the lane with a number, below 256, in the one workgroup.
fn builtins(number: u8) -> Builtins
    ensures { (i : ℕ) → i < 3 → global_part result i < 2 ^ 32 }
{
    let index = u32::from(number);
    Builtins {
        local: [index, 0, 0],
        index,
        group: [0, 0, 0],
        groups: [1, 1, 1],
        size: [2, 1, 1],
    }
}

/// Whether the first function of a module has rules.
fn entry_has_rules(checked: &CoreModule) -> bool
    ensures { result ≡ true → (f : TheFunction) → slice_get checked.now.functions 0 ≡ Some f → has_rules_of f ≡ true }
{
    match checked.functions.get(0) {
        Some(function) => has_rules(function),
        None => true,
    }
}

/// Whether a lane may step.
fn is_able(lane: &Lane) -> bool
    ensures { result ≡ is_able_of lane.now.state }
{
    matches!(lane.state(), LaneState::Able)
}

/// Comparisons of an index with 1, and what the third step does.
const THIRD: &[(Op, u8, LaneEvent)] = &[
    (Op::Less, 0, LaneEvent::Arrives),
    (Op::Less, 1, LaneEvent::Ended),
    (Op::GreaterEqual, 0, LaneEvent::Ended),
    (Op::GreaterEqual, 1, LaneEvent::Arrives),
];

#[test]
fn lanes_of_two_parts(rt: HostRuntime) -> Result<(), Fail> {
    let alloc = rt.alloc();
    for (op, number, third) in THIRD {
        let module = branching(alloc, *op, Severity::Warning, BarrierAt::Within)?;
        let mut memory = Memory::begin(alloc, &module, &Items::new(alloc))?;
        assert!(rt; entry_has_rules(&module));
        let mut lane = Lane::begin(alloc, &module, 0, &builtins(*number))?;
        for event in [LaneEvent::Ran(None), LaneEvent::Ran(None), *third] {
            assert!(rt; is_able(&lane));
            assert_eq!(rt; lane.step(&mut memory)?, event, "{op:?} {number}");
        }
        if let LaneState::Waiting(_, instance) = lane.state() {
            assert_eq!(rt; instance.as_slice(), [0, 2, 0].as_slice());
        }
    }
    Ok(())
}
