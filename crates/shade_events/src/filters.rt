//! What the attributes and directives of diagnostic filters say of the severity of rules.

ghost use Rattle.std.specs.Prelude.{◌≡◌};
ghost use Rattle.shade_events.specs.Filters.{word_of, rule_of, severity_in, made_filter, filter_of, directive_filter, bad_severity, bad_directive, rule_name};

use crate::words::severity_named;
use shade_ast::{Attr, AttrName, Directive, DirectiveKind, Expr, ExprKind, Names, Rule};
use shade_base::{Place, Severity};

/// The rule of a filter, by the numbers of its names.
#[derive(Clone, Copy, Debug, PartialEq, Eq)]
pub enum RuleName {
    Plain(u32),
    Scoped(u32, u32),
}

/// A filter: the severity that it gives a rule, and the place at which it is told.
#[derive(Clone, Copy, Debug, PartialEq, Eq)]
pub struct Filter {
    pub severity: Severity,
    pub rule: RuleName,
    pub place: Place,
}

fn word_of(e: &Expr) -> Option<u32>
    ensures { result ≡ word_of e.now }
{
    match &e.kind {
        ExprKind::Name(name) => Some(*name),
        _ => None,
    }
}

fn rule_of(e: &Expr) -> Option<RuleName>
    ensures { result ≡ rule_of e.now }
{
    match &e.kind {
        ExprKind::Name(name) => Some(RuleName::Plain(*name)),
        ExprKind::Member { whole, member, .. } => match word_of(whole.get()) {
            Some(scope) => Some(RuleName::Scoped(scope, member.name)),
            None => None,
        },
        _ => None,
    }
}

fn severity_in(names: &Names, e: &Expr) -> Option<Severity>
    ensures { result ≡ severity_in names.now e.now }
{
    match word_of(e) {
        Some(name) => severity_named(names, name),
        None => None,
    }
}

fn made_filter(place: Place, severity: Option<Severity>, rule: Option<RuleName>) -> Option<Filter>
    ensures { result ≡ made_filter place severity rule }
{
    let Some(severity) = severity else {
        return None;
    };
    let Some(rule) = rule else {
        return None;
    };
    Some(Filter {
        severity,
        rule,
        place,
    })
}

/// The filter that an attribute is.
pub fn filter_of(names: &Names, attr: &Attr) -> Option<Filter>
    ensures { result ≡ filter_of names.now attr.now }
{
    let AttrName::Diagnostic(_) = attr.name else {
        return None;
    };
    let Some(arguments) = &attr.arguments else {
        return None;
    };
    match arguments.items.as_slice() {
        [severity, rule] => made_filter(attr.place, severity_in(names, severity), rule_of(rule)),
        _ => None,
    }
}

/// The place of the first argument of a filter, where it is no severity.
pub fn bad_severity(names: &Names, attr: &Attr) -> Option<Place>
    ensures { result ≡ bad_severity names.now attr.now }
{
    let AttrName::Diagnostic(_) = attr.name else {
        return None;
    };
    let Some(arguments) = &attr.arguments else {
        return None;
    };
    match arguments.items.as_slice() {
        [first, ..] => match severity_in(names, first) {
            Some(_) => None,
            None => Some(first.place),
        },
        [] => None,
    }
}

fn rule_name(rule: Rule) -> RuleName
    ensures { result ≡ rule_name rule }
{
    match rule {
        Rule::Plain(name) => RuleName::Plain(name.name),
        Rule::Scoped { scope, name, .. } => RuleName::Scoped(scope.name, name.name),
    }
}

/// The filter of the module that a directive is.
pub fn directive_filter(names: &Names, directive: &Directive) -> Option<Filter>
    ensures { result ≡ directive_filter names.now directive.now }
{
    match &directive.kind {
        DirectiveKind::Diagnostic { severity, rule, .. } => made_filter(
            directive.place,
            severity_named(names, severity.name),
            Some(rule_name(*rule)),
        ),
        _ => None,
    }
}

/// The place of the severity of a directive, where it is none.
pub fn bad_directive(names: &Names, kind: &DirectiveKind) -> Option<Place>
    ensures { result ≡ bad_directive names.now kind.now }
{
    match kind {
        DirectiveKind::Diagnostic { severity, .. } => match severity_named(names, severity.name) {
            Some(_) => None,
            None => Some(severity.place),
        },
        _ => None,
    }
}
