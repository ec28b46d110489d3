//! Numbers of a job, and lists of them.

ghost use Rattle.std.specs.Prelude.{◌≡◌, IfOk, ◌==◌, map, length, nat_le, MatchResult, option_map, ◌&&◌, ◌++◌, ◌∷◌, []};
ghost use Rattle.serde_json.specs.View.{view};
ghost use Rattle.shade_values.specs.Numbers.{word};
ghost use Rattle.shade_job.specs.Json.{whole, between, below, word_in, number_of, items_in, sized, by_range, by_ranges, ItemFails, NumbersAre, NumbersFail};
ghost use Rattle.shade_job.specs.ByRule.{RefusesBy};
ghost use Rattle.shade_job.specs.Rules.{NumberFails};

use crate::refusal::{JobRefusal, JobRule, item_refusal, refusal};
use serde_json::Value;
use std::alloc::{AllocError, Global};

/// Which whole numbers are taken.
#[derive(Clone, Copy, Debug, PartialEq, Eq)]
pub enum NumberRange {
    /// From the first to the second, both included.
    Between(u32, u32),
    /// From 0 to the one before it.
    Below(u32),
    /// From -2,147,483,648 to 4,294,967,295, a negative one modulo 2^32.
    Word,
}

fn between(number: u64, least: u32, most: u32) -> Option<u32>
    ensures { result ≡ between least most number }
{
    if u64::from(least) <= number && number <= u64::from(most) {
        Some(number as u32)
    } else {
        None
    }
}

fn below(number: u64, end: u32) -> Option<u32>
    ensures { result ≡ below end number }
{
    if number < u64::from(end) {
        Some(number as u32)
    } else {
        None
    }
}

fn word(number: i64) -> u32
    ensures { result ≡ word number }
{
    number.rem_euclid(0x1_0000_0000) as u32
}

fn word_in(number: i64) -> Option<u32>
    ensures { result ≡ word_in number }
{
    if -2_147_483_648 <= number && number <= 4_294_967_295 {
        Some(word(number))
    } else {
        None
    }
}

/// The number that a value states, where it is one of a range.
pub(crate) fn number_in(value: &Value, range: NumberRange) -> Option<u32>
    ensures { result ≡ number_of range (view value.now) }
{
    match range {
        NumberRange::Between(least, most) => between(value.as_u64()?, least, most),
        NumberRange::Below(end) => below(value.as_u64()?, end),
        NumberRange::Word => word_in(value.as_i64()?),
    }
}

/// The number that a value states, or the refusal of one that states none of a range.
pub(crate) fn read_number(
    alloc: Global,
    value: &Value,
    range: NumberRange,
    rule: JobRule,
    pointer: &[u8],
) -> Result<u32, JobRefusal>
    ensures { MatchResult result (λ number. number_of range (view value.now) ≡ Some number) (RefusesBy rule (NumberFails range pointer.now (view value.now))) }
{
    match number_in(value, range) {
        Some(number) => Ok(number),
        None => Err(refusal(alloc, rule, pointer)),
    }
}

/// The items of a list.
pub(crate) fn items_of(value: &Value) -> Option<&[Value]>
    ensures { option_map (λ items. map view items.now) result ≡ items_in (view value.now) }
{
    match value.as_array() {
        Some(items) => Some(items.as_slice()),
        None => None,
    }
}

/// The items of a list that has from `least` to `most` of them.
pub(crate) fn items_between(value: &Value, least: usize, most: usize) -> Option<&[Value]>
    ensures { option_map (λ items. map view items.now) result ≡ sized (λ n. nat_le least n && nat_le n most) (view value.now) }
{
    let items = items_of(value)?;
    if least <= items.len() && items.len() <= most {
        Some(items)
    } else {
        None
    }
}

/// The items of a list that has exactly so many.
pub(crate) fn items_exactly(value: &Value, count: usize) -> Option<&[Value]>
    ensures { option_map (λ items. map view items.now) result ≡ sized (λ n. n == count) (view value.now) }
{
    let items = items_of(value)?;
    if items.len() == count {
        Some(items)
    } else {
        None
    }
}

/// The numbers that items state, all of one range, or the refusal of the first item that states none.
pub(crate) fn numbers_of(
    alloc: Global,
    items: &[Value],
    range: NumberRange,
    rule: JobRule,
    pointer: &[u8],
) -> Result<Vec<u32>, JobRefusal>
    ensures { MatchResult result (λ numbers. by_range range (map view items.now) ≡ map (λ n. Some n) numbers.items) (RefusesBy rule (ItemFails pointer.now (by_range range (map view items.now)))) }
{
    let mut numbers = Vec::new(alloc);
    for (index, item) in items.iter().enumerate() {
        let Some(number) = number_in(item, range) else {
            return Err(item_refusal(alloc, rule, pointer, index));
        };
        add(&mut numbers, number)?;
    }
    Ok(numbers)
}

/// The numbers that as many items state as there are ranges, each of its own, or the refusal of the first that states none.
fn numbers_by(
    alloc: Global,
    items: &[Value],
    ranges: &[NumberRange],
    rule: JobRule,
    pointer: &[u8],
) -> Result<Vec<u32>, JobRefusal>
    requires { length items.now ≡ length ranges.now }
    ensures { MatchResult result (λ numbers. by_ranges ranges.now (map view items.now) ≡ map (λ n. Some n) numbers.items) (RefusesBy rule (ItemFails pointer.now (by_ranges ranges.now (map view items.now)))) }
{
    let mut numbers = Vec::new(alloc);
    for (index, range) in ranges.iter().enumerate() {
        let Some(number) = number_in(&items[index], *range) else {
            return Err(item_refusal(alloc, rule, pointer, index));
        };
        add(&mut numbers, number)?;
    }
    Ok(numbers)
}

fn add(numbers: &mut Vec<u32>, number: u32) -> Result<(), AllocError>
    ensures { IfOk result (λ _. numbers.new.items ≡ numbers.old.items ++ number ∷ []) }
{
    numbers.push(number)?;
    Ok(())
}

/// The numbers of a list of as many as there are ranges, each of its own, or the refusal of the list or of its first item that is none.
pub(crate) fn read_numbers(
    alloc: Global,
    value: &Value,
    ranges: &[NumberRange],
    rule: JobRule,
    pointer: &[u8],
) -> Result<Vec<u32>, JobRefusal>
    ensures { MatchResult result (λ numbers. NumbersAre ranges.now (view value.now) numbers.items) (RefusesBy rule (NumbersFail ranges.now pointer.now (view value.now))) }
{
    let Some(items) = items_exactly(value, ranges.len()) else {
        return Err(refusal(alloc, rule, pointer));
    };
    numbers_by(alloc, items, ranges, rule, pointer)
}
