//! A workgroup at its start.

ghost use Rattle.std.specs.Prelude.{◌≡◌, ℕ, ◌<◌, ◌≤◌, ◌*◌, ◌^◌, length, slice_index, true, IfOk};
ghost use Rattle.shade_core.specs.Rules.{has_rules};
ghost use Rattle.shade_group.specs.Group.{begin as begin_of, builtins_of as builtins_at, IsRunnable, lane_count, members_from};
ghost use Rattle.shade_group.specs.Inside.{inside, members_of};
ghost use Rattle.shade_lane.specs.Lane.{global_part};
ghost use Rattle.shade_mem.specs.Inputs.{IsAllowed};

use crate::event::Epochs;
use crate::group::Group;
use crate::workgroup::Workgroup;
use shade_core::{CoreFunction, CoreModule};
use shade_lane::{Builtins, Lane};
use shade_mem::{Inputs, Memory};
use std::alloc::{AllocError, Global};

impl<'m> Group<'m> {
    ghost use Rattle.shade_group.specs.Seen.{machine_of};

    /// The lanes of an entry before their first step. The inputs are those that a job may hand in, and the entry has
    /// 1 to 256 lanes, has rules and ends in a return.
    pub fn begin(
        alloc: Global,
        module: &'m CoreModule,
        inputs: &Inputs,
    ) -> Result<Group<'m>, AllocError>
        requires allowed { IsAllowed «module».now inputs.now }
        requires runs { IsRunnable «module».now inputs.now.entry }
        ensures { IfOk result (λ group. machine_of group ≡ begin_of «module».now inputs.now) }
    {
        let workgroup = workgroup_of(alloc, module, inputs)?;
        Ok(Group { workgroup })
    }
}

/// The lanes of the entry, with their memory.
fn workgroup_of<'m>(
    alloc: Global,
    module: &'m CoreModule,
    inputs: &Inputs,
) -> Result<Workgroup<'m>, AllocError>
    requires allowed { IsAllowed «module».now inputs.now }
    requires runs { IsRunnable «module».now inputs.now.entry }
    ensures { IfOk result (λ workgroup. inside workgroup ≡ begin_of «module».now inputs.now) }
{
    let lanes = entry_lanes(alloc, module, inputs)?;
    Ok(Workgroup {
        lanes,
        memory: Memory::begin(alloc, module, &inputs.words)?,
        epochs: Epochs {
            workgroup: 0,
            storage: 0,
        },
        released: Vec::new(alloc),
        diverged: None,
        steps: 0,
        stutters: 0,
    })
}

/// The lanes of the entry.
fn entry_lanes<'m>(
    alloc: Global,
    module: &'m CoreModule,
    inputs: &Inputs,
) -> Result<Vec<Lane<'m>>, AllocError>
    requires allowed { IsAllowed «module».now inputs.now }
    requires runs { IsRunnable «module».now inputs.now.entry }
    ensures lanes { IfOk result (λ lanes. members_of lanes.items ≡ (begin_of «module».now inputs.now).members) }
    ensures few { IfOk result (λ lanes. length lanes.items ≤ 256) }
{
    if let Some(function) = module.functions.get(inputs.entry as usize) {
        if let Some(size) = function.entry {
            return lanes_of(alloc, function, size, inputs);
        }
    }
    Ok(Vec::new(alloc))
}

/// So many lanes as a workgroup of this size has.
fn lanes_of<'m>(
    alloc: Global,
    function: &'m CoreFunction,
    size: [u32; 3],
    inputs: &Inputs,
) -> Result<Vec<Lane<'m>>, AllocError>
    requires rules { has_rules function.now ≡ true }
    requires flat { slice_index size 0 * slice_index size 1 ≤ 256 }
    requires first { 0 < slice_index size 0 }
    requires second { 0 < slice_index size 1 }
    requires both { 0 < slice_index size 0 * slice_index size 1 }
    requires most { lane_count size ≤ 256 }
    requires parts { (n : ℕ) → n < lane_count size → (i : ℕ) → i < 3 → global_part (builtins_at inputs.now size n) i < 2 ^ 32 }
    ensures lanes { IfOk result (λ lanes. members_of lanes.items ≡ members_from inputs.now function.now size 0 (lane_count size)) }
    ensures few { IfOk result (λ lanes. length lanes.items ≤ 256) }
{
    let count = size[0] * size[1] * size[2];
    let mut lanes = Vec::with_capacity(alloc, count as usize)?;
    for number in 0..count {
        let builtins = builtins_of(inputs, size, number);
        lanes.push(Lane::of(alloc, function, inputs.entry, &builtins)?)?;
    }
    Ok(lanes)
}

/// What the lane with this number is handed.
fn builtins_of(inputs: &Inputs, size: [u32; 3], number: u32) -> Builtins
    requires flat { slice_index size 0 * slice_index size 1 ≤ 256 }
    requires first { 0 < slice_index size 0 }
    requires second { 0 < slice_index size 1 }
    requires both { 0 < slice_index size 0 * slice_index size 1 }
    ensures { result ≡ builtins_at inputs.now size number }
{
    Builtins {
        local: [
            number % size[0],
            number / size[0] % size[1],
            number / (size[0] * size[1]),
        ],
        index: number,
        group: inputs.group,
        groups: inputs.groups,
        size,
    }
}
