//! Why bytes state no job, and where.

ghost use Rattle.std.specs.Prelude.{◌≡◌, ◌++◌, ◌∷◌, [], IfOk, MatchResult};
ghost use Rattle.shade_job.specs.Pointers.{escaped, escaped_byte, item_pointer, member_pointer};
ghost use Rattle.shade_job.specs.Refusals.{rule_number};
ghost use Rattle.shade_job.specs.ByRule.{RefusesBy};
ghost use Rattle.shade_job.specs.declared.refusal.JobRefusal.TheVariants.{NoMemory};

use shade_values::Name;
use std::alloc::{AllocError, Global};

/// A rule on JSON jobs, in the order in which the rules are tested.
#[derive(Clone, Copy, Debug, PartialEq, Eq)]
pub enum JobRule {
    /// The bytes are few enough, and a JSON object.
    Form,
    Version,
    /// The entry is one of the module.
    Entry,
    /// How many workgroups there are.
    Groups,
    /// Which workgroup runs.
    Group,
    /// Which variables have buffers.
    Buffers,
    /// The words of the buffers.
    Words,
    Schedule,
    /// The greatest number of steps.
    Steps,
    /// No other member stands in the job.
    OtherMember,
}

impl JobRule {
    /// Gives the number by which the rule is told, from 1 to 10. Takes no memory.
    pub fn number(self) -> u8
        ensures { result ≡ rule_number self }
    {
        match self {
            JobRule::Form => 1,
            JobRule::Version => 2,
            JobRule::Entry => 3,
            JobRule::Groups => 4,
            JobRule::Group => 5,
            JobRule::Buffers => 6,
            JobRule::Words => 7,
            JobRule::Schedule => 8,
            JobRule::Steps => 9,
            JobRule::OtherMember => 10,
        }
    }
}

/// Why some bytes state no job.
#[derive(Debug, Drop)]
pub enum JobRefusal {
    /// The first rule that they break, and a JSON pointer to the first value that breaks it, or to the object that lacks a member.
    Rule { pointer: Name, rule: JobRule },
    NoMemory,
}

impl From<AllocError> for JobRefusal {
    ghost from_gives = { λ _ e. e ≡ NoMemory };

    fn from(_: AllocError) -> Self {
        JobRefusal::NoMemory
    }
}

fn escaped_byte(bytes: &mut Vec<u8>, byte: u8) -> Result<(), AllocError>
    ensures { IfOk result (λ _. bytes.new.items ≡ bytes.old.items ++ escaped_byte byte) }
{
    match byte {
        b'~' => bytes.extend_from_slice(b"~0"),
        b'/' => bytes.extend_from_slice(b"~1"),
        _ => bytes.extend_from_slice(&[byte]),
    }
}

/// Adds a name as pointers write it.
fn add_escaped(bytes: &mut Vec<u8>, name: &[u8]) -> Result<(), AllocError>
    ensures { IfOk result (λ _. bytes.new.items ≡ bytes.old.items ++ escaped name.now) }
{
    for byte in name {
        escaped_byte(bytes, *byte)?;
    }
    Ok(())
}

/// A pointer and a `/`.
fn part_begun(alloc: Global, base: &[u8]) -> Result<Vec<u8>, AllocError>
    ensures { IfOk result (λ bytes. bytes.items ≡ base.now ++ 47 ∷ []) }
{
    let mut bytes = Vec::from_slice(alloc, base)?;
    bytes.push(b'/')?;
    Ok(bytes)
}

/// The pointer to a member of what another pointer points to.
pub(crate) fn member_pointer(alloc: Global, base: &[u8], name: &[u8]) -> Result<Vec<u8>, AllocError>
    ensures { IfOk result (λ bytes. bytes.items ≡ member_pointer base.now name.now) }
{
    let mut bytes = part_begun(alloc, base)?;
    add_escaped(&mut bytes, name)?;
    Ok(bytes)
}

/// The pointer to an item of what another pointer points to.
pub(crate) fn item_pointer(alloc: Global, base: &[u8], index: usize) -> Result<Vec<u8>, AllocError>
    ensures { IfOk result (λ bytes. bytes.items ≡ item_pointer base.now index) }
{
    let mut bytes = part_begun(alloc, base)?;
    let digits = format!(in alloc; "{index}")?;
    bytes.extend_from_slice(digits.as_bytes())?;
    Ok(bytes)
}

/// The refusal by a rule at a pointer that is made, or want of memory.
fn refusal_at(rule: JobRule, pointer: Result<Vec<u8>, AllocError>) -> JobRefusal
    ensures { MatchResult pointer (λ bytes. RefusesBy rule (λ at. at ≡ bytes.items) result) (λ _. result ≡ NoMemory) }
{
    match pointer {
        Ok(bytes) => JobRefusal::Rule {
            pointer: Name::from_vec(bytes),
            rule,
        },
        Err(_) => JobRefusal::NoMemory,
    }
}

/// The refusal by a rule at a pointer.
pub(crate) fn refusal(alloc: Global, rule: JobRule, pointer: &[u8]) -> JobRefusal
    ensures { RefusesBy rule (λ at. at ≡ pointer.now) result }
{
    refusal_at(rule, Vec::from_slice(alloc, pointer))
}

/// The refusal by a rule at an item of what a pointer points to.
pub(crate) fn item_refusal(alloc: Global, rule: JobRule, base: &[u8], index: usize) -> JobRefusal
    ensures { RefusesBy rule (λ at. at ≡ item_pointer base.now index) result }
{
    refusal_at(rule, item_pointer(alloc, base, index))
}

/// The refusal by a rule at a member of what a pointer points to.
pub(crate) fn member_refusal(alloc: Global, rule: JobRule, base: &[u8], name: &[u8]) -> JobRefusal
    ensures { RefusesBy rule (λ at. at ≡ member_pointer base.now name.now) result }
{
    refusal_at(rule, member_pointer(alloc, base, name))
}
