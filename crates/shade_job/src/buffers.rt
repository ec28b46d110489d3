//! The buffers of a job: names of variables in storage and uniform memory, and their words.

ghost use Rattle.std.specs.Prelude.{◌≡◌, ◌≤◌, ◌/◌, ◌++◌, ◌||◌, not, nat_le, true, map, MatchOption, MatchResult, IfOk, IsTrue, ◌↔◌, option_map};
ghost use Rattle.std.specs.Option.{option_to_list};
ghost use Rattle.serde_json.specs.View.{view, members_view};
ghost use Rattle.shade_values.specs.Shape.{shape_of};
ghost use Rattle.shade_values.specs.Layouts.{layout};
ghost use Rattle.shade_mem.specs.Fitting.{is_buffer, least_words};
ghost use Rattle.shade_job.specs.Json.{by_range, number_of, IsFirstNone};
ghost use Rattle.shade_job.specs.Pointers.{member_pointer};
ghost use Rattle.shade_job.specs.ByRule.{RefusesBy};
ghost use Rattle.shade_job.specs.Rules.{other_in};
ghost use Rattle.shade_job.specs.Buffers.{is_named, names_buffer, member_named, is_given, are_given, BuffersAre, BuffersFail, NamesFail, has_words, buffer_items, are_words, IsBuffer, BufferFails, AreBuffers, FirstBuffer, words_in, stated_words, root_words, words_of, word_count, WordsAre, WordsFail};

use crate::numbers::{NumberRange, items_of, number_in};
use crate::refusal::{JobRefusal, JobRule, item_refusal, member_pointer, member_refusal, refusal};
use crate::rules::member;
use serde_json::{Map, Value};
use shade_core::{CoreModule, Root};
use shade_mem::{RootWords, Words};
use shade_values::{Space, TypeId, TypeTable};
use sqlite_items::Items;
use std::alloc::{AllocError, Global};

/// The greatest number of words of all buffers together.
const MOST_WORDS: usize = 1_048_576;

fn is_buffer(root: &Root) -> bool
    ensures { result ≡ is_buffer root.now }
{
    match root.space {
        Space::Storage | Space::Uniform => true,
        Space::Function | Space::Private | Space::Workgroup => false,
    }
}

/// Whether a variable has a buffer, by this name.
fn is_named(root: &Root, name: &[u8]) -> bool
    ensures { result ≡ is_named name.now root.now }
{
    is_buffer(root) && root.name.as_slice() == name
}

/// Whether a variable with this name has a buffer.
fn names_buffer(module: &CoreModule, name: &[u8]) -> bool
    ensures { result ≡ names_buffer «module».now name.now }
{
    let roots = module.roots.as_slice();
    roots.iter().any(|root| is_named(root, name))
}

/// The first name that no variable with a buffer has.
fn first_other<'a>(members: &'a Map<String, Value>, module: &CoreModule) -> Option<&'a str>
    ensures { option_map (λ name. name.now) result ≡ other_in (names_buffer «module».now) (members_view members.now.entries) }
{
    for (name, _) in members {
        if !names_buffer(module, name.as_str().as_bytes()) {
            return Some(name.as_str());
        }
    }
    None
}

/// The member with a name.
fn member_named<'a>(members: &'a Map<String, Value>, name: &[u8]) -> Option<&'a Value>
    ensures { option_map (λ value. view value.now) result ≡ member_named name.now (members_view members.now.entries) }
{
    for (other, value) in members {
        if other.as_str().as_bytes() == name {
            return Some(value);
        }
    }
    None
}

/// Whether a variable is given its buffer, if it has one.
fn is_given(root: &Root, members: &Map<String, Value>) -> bool
    ensures { result ≡ is_given (members_view members.now.entries) root.now }
{
    !is_buffer(root) || member_named(members, root.name.as_slice()).is_some()
}

fn are_given(module: &CoreModule, members: &Map<String, Value>) -> bool
    ensures { result ≡ are_given «module».now (members_view members.now.entries) }
{
    let roots = module.roots.as_slice();
    roots.iter().all(|root| is_given(root, members))
}

/// Refuses the first name of no buffer, and then an object that lacks one.
fn refuse_names(
    alloc: Global,
    members: &Map<String, Value>,
    module: &CoreModule,
) -> Result<(), JobRefusal>
    ensures { MatchResult result (λ _. (other_in (names_buffer «module».now) (members_view members.now.entries) ≡ None) × (are_given «module».now (members_view members.now.entries) ≡ true)) (RefusesBy JobRule.Buffers (NamesFail «module».now (members_view members.now.entries))) }
{
    if let Some(name) = first_other(members, module) {
        return Err(member_refusal(alloc, JobRule::Buffers, b"/buffers", name.as_bytes()));
    }
    if !are_given(module, members) {
        return Err(refusal(alloc, JobRule::Buffers, b"/buffers"));
    }
    Ok(())
}

/// The buffers of a job by their names.
pub(crate) fn read_buffers<'a>(
    alloc: Global,
    job: &'a Value,
    module: &CoreModule,
) -> Result<&'a Map<String, Value>, JobRefusal>
    ensures { MatchResult result (λ members. BuffersAre «module».now (view job.now) (members_view members.now.entries)) (RefusesBy JobRule.Buffers (BuffersFail «module».now (view job.now))) }
{
    let value = member(alloc, job, "buffers", JobRule::Buffers)?;
    let Some(members) = value.as_object() else {
        return Err(refusal(alloc, JobRule::Buffers, b"/buffers"));
    };
    refuse_names(alloc, members, module)?;
    Ok(members)
}

/// The least words of a type. (A type of no table has none.)
fn least_words(types: &TypeTable, ty: TypeId) -> u64
    ensures { result ≡ (layout (shape_of types.now ty)).size / 4 }
{
    if ty.0 < types.count() {
        types.layout_of(ty).size / 4
    } else {
        0
    }
}

/// Whether so many words are enough for a variable, if it has a buffer by this name.
fn has_enough(module: &CoreModule, root: &Root, name: &[u8], count: usize) -> bool
    ensures { result ≡ (not (is_named name.now root.now) || nat_le (least_words «module».now root.now) count) }
{
    !is_named(root, name) || least_words(&module.types, root.ty) <= count as u64
}

/// Whether so many words are enough for each buffer with a name.
fn has_words(module: &CoreModule, name: &[u8], count: usize) -> bool
    ensures { result ≡ has_words «module».now name.now count }
{
    let roots = module.roots.as_slice();
    roots
        .iter()
        .all(|root| has_enough(module, root, name, count))
}

/// The items of a buffer that has enough of them.
fn buffer_items<'a>(module: &CoreModule, name: &[u8], value: &'a Value) -> Option<&'a [Value]>
    ensures { option_map (λ items. map view items.now) result ≡ buffer_items «module».now name.now (view value.now) }
{
    let items = items_of(value)?;
    if has_words(module, name, items.len()) {
        Some(items)
    } else {
        None
    }
}

/// The first item that is no word.
fn first_no_word(items: &[Value]) -> Option<usize>
    ensures { MatchOption result (are_words (map view items.now) ≡ true) (λ index. IsFirstNone (by_range NumberRange.Word (map view items.now)) index) }
{
    for (index, item) in items.iter().enumerate() {
        let Some(_) = number_in(item, NumberRange::Word) else {
            return Some(index);
        };
    }
    None
}

/// Refuses a buffer that is no list of enough words.
fn refuse_buffer(
    alloc: Global,
    module: &CoreModule,
    name: &[u8],
    value: &Value,
) -> Result<(), JobRefusal>
    ensures { MatchResult result (λ _. IsBuffer «module».now name.now (view value.now)) (RefusesBy JobRule.Words (BufferFails «module».now name.now (view value.now))) }
{
    let Some(items) = buffer_items(module, name, value) else {
        return Err(member_refusal(alloc, JobRule::Words, b"/buffers", name));
    };
    let Some(index) = first_no_word(items) else {
        return Ok(());
    };
    let buffer = member_pointer(alloc, b"/buffers", name)?;
    Err(item_refusal(alloc, JobRule::Words, &buffer, index))
}

/// Refuses the first buffer that is no list of enough words.
fn refuse_buffers(
    alloc: Global,
    members: &Map<String, Value>,
    module: &CoreModule,
) -> Result<(), JobRefusal>
    ensures { MatchResult result (λ _. AreBuffers «module».now (members_view members.now.entries)) (RefusesBy JobRule.Words (FirstBuffer «module».now (members_view members.now.entries))) }
{
    for (name, value) in members {
        refuse_buffer(alloc, module, name.as_str().as_bytes(), value)?;
    }
    Ok(())
}

fn add_word(words: &mut Words, item: &Value) -> Result<(), AllocError>
    ensures { IfOk result (λ _. words.new ≡ words.old ++ option_to_list (number_of NumberRange.Word (view item.now))) }
{
    match number_in(item, NumberRange::Word) {
        Some(word) => words.push(word),
        None => Ok(()),
    }
}

/// The words that items state.
fn words_in(alloc: Global, items: &[Value]) -> Result<Words, AllocError>
    ensures { IfOk result (λ words. words ≡ words_in (map view items.now)) }
{
    let mut words = Items::new(alloc);
    for item in items {
        add_word(&mut words, item)?;
    }
    Ok(words)
}

/// The words of a variable at the start.
fn root_words(alloc: Global, members: &Map<String, Value>, root: &Root) -> Result<Words, AllocError>
    ensures { IfOk result (λ words. words ≡ root_words (members_view members.now.entries) root.now) }
{
    if !is_buffer(root) {
        return Ok(Items::new(alloc));
    }
    match member_named(members, root.name.as_slice()) {
        Some(value) => stated_words(alloc, value),
        None => Ok(Items::new(alloc)),
    }
}

fn stated_words(alloc: Global, value: &Value) -> Result<Words, AllocError>
    ensures { IfOk result (λ words. words ≡ stated_words (Some (view value.now))) }
{
    match items_of(value) {
        Some(items) => words_in(alloc, items),
        None => Ok(Items::new(alloc)),
    }
}

/// The words of all variables at the start.
fn words_of(
    alloc: Global,
    members: &Map<String, Value>,
    module: &CoreModule,
) -> Result<RootWords, AllocError>
    ensures { IfOk result (λ words. words ≡ words_of «module».now (members_view members.now.entries)) }
{
    let mut words = Items::new(alloc);
    for root in module.roots.as_slice() {
        words.push(root_words(alloc, members, root)?)?;
    }
    Ok(words)
}

/// Whether the words of all variables together are few enough.
fn are_few(words: &[Words]) -> bool
    ensures { IsTrue result ↔ (word_count words.now ≤ 1048576) }
{
    let mut left = MOST_WORDS;
    for list in words {
        let Some(rest) = left.checked_sub(list.len()) else {
            return false;
        };
        left = rest;
    }
    true
}

/// The words of the variables, by the buffers of a job.
pub(crate) fn read_words(
    alloc: Global,
    members: &Map<String, Value>,
    module: &CoreModule,
) -> Result<RootWords, JobRefusal>
    ensures { MatchResult result (λ words. WordsAre «module».now (members_view members.now.entries) words) (RefusesBy JobRule.Words (WordsFail «module».now (members_view members.now.entries))) }
{
    refuse_buffers(alloc, members, module)?;
    let words = words_of(alloc, members, module)?;
    if !are_few(words.as_slice()) {
        return Err(refusal(alloc, JobRule::Words, b"/buffers"));
    }
    Ok(words)
}
