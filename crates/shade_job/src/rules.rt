//! The rules on a job but those on buffers and schedules, one function each.

ghost use Rattle.std.specs.Prelude.{◌≡◌, ℕ, List, [], min, length, MatchResult, IsSome, codes, position};
ghost use Rattle.serde_json.specs.Find.{get};
ghost use Rattle.serde_json.specs.View.{view};
ghost use Rattle.shade_core.specs.Limits.{lanes_of};
ghost use Rattle.shade_job.specs.Json.{number_of};
ghost use Rattle.shade_job.specs.Pointers.{member_pointer};
ghost use Rattle.shade_job.specs.ByRule.{RefusesBy};
ghost use Rattle.shade_job.specs.Rules.{IsText, FormFails, VersionIs, VersionFails, EntryIs, EntryFails, entry_named, is_entry, entry_of, lanes_at, GroupsAre, GroupsFail, GroupIs, GroupFails, parts_of, limits, MemberIs, MemberFails, NumberFails, StepsAre, StepsFail, is_known, other_of};

use crate::numbers::{NumberRange, read_number, read_numbers};
use crate::others::other_member;
use crate::policies::Schedule;
use crate::refusal::{JobRefusal, JobRule, member_refusal, refusal};
use crate::{MOST_BYTES, MOST_STEPS};
use serde_json::{Map, Value};
use shade_core::{CoreFunction, CoreModule};
use std::alloc::Global;

/// The value of a JSON text that is not too long.
pub(crate) fn parse(alloc: Global, bytes: &[u8]) -> Result<Value, JobRefusal>
    ensures { MatchResult result (λ value. IsText bytes.now (view value)) (RefusesBy JobRule.Form (FormFails bytes.now)) }
{
    if bytes.len() > MOST_BYTES {
        return Err(refusal(alloc, JobRule::Form, b""));
    }
    match Value::from_slice(alloc, bytes) {
        Ok(value) => Ok(value),
        Err(error) => Err(if error.is_memory() {
            JobRefusal::NoMemory
        } else {
            refusal(alloc, JobRule::Form, b"")
        }),
    }
}

/// The member of a job with a name, or the refusal of a job that lacks it.
pub(crate) fn member<'a>(
    alloc: Global,
    job: &'a Value,
    name: &str,
    rule: JobRule,
) -> Result<&'a Value, JobRefusal>
    ensures { MatchResult result (λ value. get name.now (view job.now) ≡ Some (view value.now)) (RefusesBy rule (λ pointer. (get name.now (view job.now) ≡ None) × (pointer ≡ []))) }
{
    match job.get(name) {
        Some(value) => Ok(value),
        None => Err(refusal(alloc, rule, b"")),
    }
}

/// The version of a job.
pub(crate) fn read_version(alloc: Global, job: &Value) -> Result<u32, JobRefusal>
    ensures { MatchResult result (VersionIs (view job.now)) (RefusesBy JobRule.Version (VersionFails (view job.now))) }
{
    let value = member(alloc, job, "version", JobRule::Version)?;
    let versions = NumberRange::Between(1, 2);
    read_number(alloc, value, versions, JobRule::Version, b"/version")
}

fn is_entry(function: &CoreFunction, name: &[u8]) -> bool
    ensures { result ≡ is_entry name.now function.now }
{
    function.entry.is_some() && function.name.as_slice() == name
}

/// Where the entry with a name stands among the functions.
fn entry_place(functions: &[CoreFunction], name: &[u8]) -> Option<usize>
    ensures { result ≡ position (is_entry name.now) functions.now }
{
    functions
        .iter()
        .position(|function| is_entry(function, name))
}

/// The number of the entry with a name.
fn entry_named(module: &CoreModule, name: &[u8]) -> Option<u32>
    ensures { result ≡ entry_named «module».now name.now }
{
    let number = entry_place(module.functions.as_slice(), name)?;
    if number < 0x1_0000_0000 {
        Some(number as u32)
    } else {
        None
    }
}

/// The number of the entry that a job names.
pub(crate) fn read_entry(alloc: Global, job: &Value, module: &CoreModule) -> Result<u32, JobRefusal>
    ensures { MatchResult result (EntryIs «module».now (view job.now)) (RefusesBy JobRule.Entry (EntryFails «module».now (view job.now))) }
{
    let value = member(alloc, job, "entry", JobRule::Entry)?;
    match entry_of(value, module) {
        Some(entry) => Ok(entry),
        None => Err(refusal(alloc, JobRule::Entry, b"/entry")),
    }
}

fn entry_of(value: &Value, module: &CoreModule) -> Option<u32>
    ensures { result ≡ entry_of «module».now (view value.now) }
{
    entry_named(module, value.as_str()?.as_bytes())
}

/// How many lanes an entry has.
pub(crate) fn lanes_at(module: &CoreModule, entry: u32) -> u32
    ensures { result ≡ lanes_at «module».now entry }
{
    match module.functions.as_slice().get(entry as usize) {
        Some(function) => lanes_of(function.entry),
        None => 0,
    }
}

fn lanes_of(entry: Option<[u32; 3]>) -> u32
    ensures { result ≡ min (lanes_of entry) 4294967295 }
{
    match entry {
        Some(size) => size[0].saturating_mul(size[1]).saturating_mul(size[2]),
        None => 0,
    }
}

fn three(numbers: &[u32]) -> [u32; 3]
    requires { length numbers.now ≡ 3 }
    ensures { result ≡ numbers.now }
{
    [numbers[0], numbers[1], numbers[2]]
}

/// How many workgroups there are in each direction.
pub(crate) fn read_groups(alloc: Global, job: &Value) -> Result<[u32; 3], JobRefusal>
    ensures { MatchResult result (GroupsAre (view job.now)) (RefusesBy JobRule.Groups (GroupsFail (view job.now))) }
{
    let value = member(alloc, job, "groups", JobRule::Groups)?;
    let counts = [NumberRange::Between(1, 65_535); 3];
    let groups = read_numbers(alloc, value, &counts, JobRule::Groups, b"/groups")?;
    Ok(three(groups.as_slice()))
}

/// Which of the workgroups runs.
pub(crate) fn read_group(
    alloc: Global,
    job: &Value,
    groups: [u32; 3],
) -> Result<[u32; 3], JobRefusal>
    ensures { MatchResult result (GroupIs groups (view job.now)) (RefusesBy JobRule.Group (GroupFails groups (view job.now))) }
{
    let value = member(alloc, job, "group", JobRule::Group)?;
    let parts = parts_of(groups);
    let group = read_numbers(alloc, value, &parts, JobRule::Group, b"/group")?;
    Ok(three(group.as_slice()))
}

fn parts_of(groups: [u32; 3]) -> [NumberRange; 3]
    ensures parts { result ≡ parts_of groups }
    ensures three { length result ≡ 3 }
{
    [
        NumberRange::Below(groups[0]),
        NumberRange::Below(groups[1]),
        NumberRange::Below(groups[2]),
    ]
}

/// The greatest number of steps: that of the job, or the length of the list of its schedule.
pub(crate) fn read_limit(alloc: Global, job: &Value, schedule: &Schedule) -> Result<u64, JobRefusal>
    ensures { MatchResult result (StepsAre (view job.now) schedule.now) (RefusesBy JobRule.Steps (StepsFail (view job.now) schedule.now)) }
{
    match schedule {
        Schedule::List(steps) => limit_of_list(alloc, job, steps.len()),
        _ => limit_of_policy(alloc, job),
    }
}

/// The length of a list, where the job has no `steps` beside it.
fn limit_of_list(alloc: Global, job: &Value, length: usize) -> Result<u64, JobRefusal>
    ensures { MatchResult result (λ limit. (get (codes "steps") (view job.now) ≡ None) × (limit ≡ length)) (RefusesBy JobRule.Steps (λ pointer. IsSome (get (codes "steps") (view job.now)) × (pointer ≡ codes "/steps"))) }
{
    if job.get("steps").is_some() {
        return Err(refusal(alloc, JobRule::Steps, b"/steps"));
    }
    Ok(length as u64)
}

/// The `steps` of a job.
fn limit_of_policy(alloc: Global, job: &Value) -> Result<u64, JobRefusal>
    ensures { MatchResult result (λ limit. MemberIs (codes "steps") (λ d. number_of limits d ≡ Some limit) (view job.now)) (RefusesBy JobRule.Steps (MemberFails (codes "steps") (NumberFails limits (codes "/steps")) (view job.now))) }
{
    let value = member(alloc, job, "steps", JobRule::Steps)?;
    let limits = NumberRange::Between(0, MOST_STEPS);
    let limit = read_number(alloc, value, limits, JobRule::Steps, b"/steps")?;
    Ok(u64::from(limit))
}

/// Refuses the first member that no rule names.
pub(crate) fn refuse_others(alloc: Global, job: &Value) -> Result<(), JobRefusal>
    ensures { MatchResult result (λ _. other_of is_known (view job.now) ≡ None) (RefusesBy JobRule.OtherMember (λ pointer. (name : List ℕ) × (other_of is_known (view job.now) ≡ Some name) × (pointer ≡ member_pointer [] name))) }
{
    match other_member(job) {
        Some(name) => Err(member_refusal(alloc, JobRule::OtherMember, b"", name.as_bytes())),
        None => Ok(()),
    }
}
