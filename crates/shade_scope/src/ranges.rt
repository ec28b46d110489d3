//! How grave a violation is at each node.

ghost use Rattle.std.specs.Prelude.{◌≡◌, IfOk, OnOk, MatchOption, []};
ghost use Rattle.shade_base.specs.declared.severity.Severity.TheVariants.{Error};
ghost use Rattle.shade_scope.specs.InForce.{without_last};
ghost use Rattle.shade_scope.specs.Scopes.{last_or};
ghost use Rattle.shade_events.specs.Words.{is_one_of, is_word};
ghost use Rattle.shade_scope.specs.Grades.{blank, covered, given, graded, grades, outside, placed};
ghost use Rattle.shade_scope.specs.Ranges.{is_uniformity, rule_words, scope_words};

use shade_ast::Names;
use shade_base::Severity;
use shade_events::{Event, Filter, RuleName, text_of};
use sqlite_items::Items;
use std::alloc::{AllocError, Global};

/// The severity inside the innermost open range, and those around each open range.
#[derive(Debug, Drop)]
pub struct Ranges {
    pub current: Severity,
    pub outer: Items<Severity>,
}

fn pop_severity(outer: &mut Items<Severity>) -> Severity
    ensures rest { outer.new ≡ without_last outer.old }
    ensures last { result ≡ last_or Error outer.old }
{
    match outer.pop() {
        Some(severity) => severity,
        None => Severity::Error,
    }
}

fn is_scope_word(text: &str) -> bool
    ensures { result ≡ is_word scope_words text.now }
{
    match text {
        "lanes" => true,
        _ => false,
    }
}

/// Whether a name is `lanes`.
fn is_scope(names: &Names, name: u32) -> bool
    ensures { result ≡ is_one_of scope_words names.now name }
{
    match text_of(names, name) {
        Some(text) => is_scope_word(text),
        None => false,
    }
}

fn is_rule_word(text: &str) -> bool
    ensures { result ≡ is_word rule_words text.now }
{
    match text {
        "uniformity" => true,
        _ => false,
    }
}

/// Whether a name is `uniformity`.
fn is_rule(names: &Names, name: u32) -> bool
    ensures { result ≡ is_one_of rule_words names.now name }
{
    match text_of(names, name) {
        Some(text) => is_rule_word(text),
        None => false,
    }
}

fn is_uniformity(names: &Names, rule: RuleName) -> bool
    ensures { result ≡ is_uniformity names.now rule }
{
    match rule {
        RuleName::Plain(_) => false,
        RuleName::Scoped(scope, name) => is_scope(names, scope) && is_rule(names, name),
    }
}

fn given(outside: Severity, names: &Names, filter: Filter) -> Severity
    ensures { result ≡ given outside (is_uniformity names.now filter.rule) filter.severity }
{
    if is_uniformity(names, filter.rule) {
        return filter.severity;
    }
    outside
}

fn cover(names: &Names, ranges: &mut Ranges, event: Event) -> Result<(), AllocError>
    ensures { OnOk result (ranges.new ≡ covered names.now ranges.old event) }
{
    match event {
        Event::Covers => ranges.outer.push(ranges.current)?,
        Event::Filters(filter) => ranges.current = given(ranges.current, names, filter),
        Event::Uncovers => ranges.current = pop_severity(&mut ranges.outer),
        _ => (),
    }
    Ok(())
}

fn grade(current: Severity, event: Event, filters: &mut Vec<Severity>)
    ensures { filters.new.items ≡ graded current event filters.old.items }
{
    let Event::Node(node) = event else {
        return;
    };
    let at = node as usize;
    if at < filters.len() {
        filters[at] = current;
    }
}

fn blank_grades(alloc: Global, events: &[Event]) -> Result<Vec<Severity>, AllocError>
    ensures { IfOk result (λ filters. filters.items ≡ blank Error events.now) }
{
    let mut filters = Vec::new(alloc);
    for event in events {
        if let Event::Node(_) = event {
            filters.push(Severity::Error)?;
        }
    }
    Ok(filters)
}

/// Gives how grave a violation is at each node, by its number. Takes memory for each node.
pub fn grades(alloc: Global, names: &Names, events: &[Event]) -> Result<Vec<Severity>, AllocError>
    ensures { IfOk result (λ filters. filters.items ≡ grades names.now outside events.now (blank Error events.now)) }
{
    let mut filters = blank_grades(alloc, events)?;
    let mut ranges = Ranges {
        current: Severity::Error,
        outer: Items::new(alloc),
    };
    for event in events {
        grade(ranges.current, *event, &mut filters);
        cover(names, &mut ranges, *event)?;
    }
    Ok(filters)
}
