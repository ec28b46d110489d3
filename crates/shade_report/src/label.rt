//! The labels of nodes.

ghost use Rattle.std.specs.Prelude.{◌≡◌, IfOk, string_bytes, slice_get};
ghost use Rattle.std.specs.Option.{option_copied};
ghost use Rattle.shade_report.specs.Labels.{severity_word, named_at, named, stored_by, stored_label, label};

use crate::source::{Callee, Source};
use shade_base::Severity;
use shade_graph::Node;
use std::alloc::{AllocError, Global};

/// The word for a severity.
pub fn severity_text(severity: Severity) -> &'static str
    ensures { result.now ≡ severity_word severity }
{
    match severity {
        Severity::Error => "error",
        Severity::Warning => "warning",
        Severity::Info => "info",
        Severity::Off => "off",
    }
}

/// What is told of a statement, where there is one with this number.
pub fn source_at(sources: &[Source], number: u32) -> Option<Source>
    ensures { result ≡ slice_get sources.now number }
{
    sources.get(number as usize).copied()
}

/// A statement's number, and its place where there is such a statement.
pub fn named_text(alloc: Global, sources: &[Source], number: u32) -> Result<String, AllocError>
    ensures { IfOk result (λ text. string_bytes text ≡ named sources.now number) }
{
    match source_at(sources, number) {
        Some(source) => format!(in alloc;
            "#{number} {}:{}",
            source.place.line, source.place.column
        ),
        None => format!(in alloc; "#{number}"),
    }
}

/// What a statement stores, or what an argument of a call does.
fn stored_text(
    alloc: Global,
    sources: &[Source],
    number: u32,
    argument: u32,
) -> Result<String, AllocError>
    ensures { IfOk result (λ text. string_bytes text ≡ label sources.now (Node.Stored number argument)) }
{
    let site = named_text(alloc, sources, number)?;
    match source_at(sources, number) {
        Some(
            Source {
                callee: Callee::Function(_),
                ..
            },
        ) => format!(in alloc; "stored by argument {argument} of {site}"),
        _ => format!(in alloc; "stored {site}"),
    }
}

/// The label of a node.
pub fn label_text(alloc: Global, sources: &[Source], node: Node) -> Result<String, AllocError>
    ensures { IfOk result (λ text. string_bytes text ≡ label sources.now node) }
{
    match node {
        Node::Required(severity) => {
            let word = severity_text(severity);
            format!(in alloc; "required {word}")
        }
        Node::NonUniform => format!(in alloc; "non-uniform"),
        Node::Start => format!(in alloc; "start"),
        Node::Param(parameter) => format!(in alloc; "parameter {parameter}"),
        Node::ContentsIn(parameter) => format!(in alloc; "contents in {parameter}"),
        Node::ContentsOut(parameter) => format!(in alloc; "contents out {parameter}"),
        Node::Returned => format!(in alloc; "return"),
        Node::Before(number) => {
            let site = named_text(alloc, sources, number)?;
            format!(in alloc; "control before {site}")
        }
        Node::After(number) => {
            let site = named_text(alloc, sources, number)?;
            format!(in alloc; "control after {site}")
        }
        Node::Part(number, part) => {
            let site = named_text(alloc, sources, number)?;
            format!(in alloc; "part {part} of {site}")
        }
        Node::Value(number) => {
            let site = named_text(alloc, sources, number)?;
            format!(in alloc; "value {site}")
        }
        Node::Stored(number, argument) => stored_text(alloc, sources, number, argument),
    }
}
