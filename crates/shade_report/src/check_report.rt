//! The report of a check.

ghost use Rattle.std.specs.Prelude.{◌≡◌, ◌++◌, ◌==◌, map, count_by, codes, unwrap_or, [], IfOk, string_bytes, slice_get};
ghost use Rattle.std.specs.List.{flat_map};
ghost use Rattle.shade_core.specs.Standing.{AreNumbered};
ghost use Rattle.shade_graph.specs.Order.{severity_rank};
ghost use Rattle.shade_report.specs.Sources.{list_sources};
ghost use Rattle.shade_report.specs.Labels.{label};
ghost use Rattle.shade_report.specs.CheckReport.{count_of, verdict_word, first_line, function_name, barrier_name, callee_name, called_name, reason, step_line, header_line, sources_in, violation_lines, violation_text, check_report};

use crate::label::{label_text, named_text, severity_text, source_at};
use crate::source::{Callee, Source, sources_of};
use shade_base::Severity;
use shade_core::{CoreFunction, CoreModule};
use shade_graph::Via;
use shade_values::Space;
use shade_verdict::{PathStep, Violation};
use std::alloc::{AllocError, Global};

fn rank(severity: Severity) -> u32
    ensures { result ≡ severity_rank severity }
{
    match severity {
        Severity::Error => 0,
        Severity::Warning => 1,
        Severity::Info => 2,
        Severity::Off => 3,
    }
}

/// How many violations have a severity.
pub fn count_with(violations: &[Violation], severity: Severity) -> usize
    ensures { result ≡ count_of severity violations.now }
{
    let wanted = rank(severity);
    violations
        .iter()
        .filter(|violation| rank(violation.severity) == wanted)
        .count()
}

fn verdict_text(errors: usize) -> &'static str
    ensures { result.now ≡ verdict_word errors }
{
    if errors == 0 { "accepted" } else { "rejected" }
}

/// The first line.
fn first_text(alloc: Global, violations: &[Violation]) -> Result<String, AllocError>
    ensures { IfOk result (λ text. string_bytes text ≡ first_line (count_of Severity.Error violations.now) (count_of Severity.Warning violations.now) (count_of Severity.Info violations.now)) }
{
    let errors = count_with(violations, Severity::Error);
    let warnings = count_with(violations, Severity::Warning);
    let infos = count_with(violations, Severity::Info);
    let verdict = verdict_text(errors);
    format!(in alloc; "{verdict} errors {errors} warnings {warnings} infos {infos}\n")
}

/// The name of the function with a number, and nothing where there is none.
pub(crate) fn name_at(functions: &[CoreFunction], number: u32) -> &[u8]
    ensures { result.now ≡ function_name functions.now number }
{
    match functions.get(number as usize) {
        Some(function) => function.name.as_slice(),
        None => b"",
    }
}

fn barrier_text(space: Space) -> &'static str
    ensures { result.now ≡ barrier_name space }
{
    match space {
        Space::Storage => "storageBarrier",
        _ => "workgroupBarrier",
    }
}

/// The name of the function that a statement calls.
fn called_text(functions: &[CoreFunction], source: Option<Source>) -> &[u8]
    ensures { result.now ≡ called_name functions.now source }
{
    let Some(source) = source else {
        return b"";
    };
    match source.callee {
        Callee::Barrier(space) => barrier_text(space).as_bytes(),
        Callee::UniformLoad => b"workgroupUniformLoad",
        Callee::Function(number) => name_at(functions, number),
        Callee::Nothing => b"",
    }
}

/// Adds the reason of an edge.
fn add_reason(
    alloc: Global,
    functions: &[CoreFunction],
    via: Via,
    out: &mut Vec<u8>,
) -> Result<(), AllocError>
    ensures { IfOk result (λ _. out.new.items ≡ out.old.items ++ reason functions.now (Some via)) }
{
    let source = label_text(alloc, &[], via.tag.source)?;
    let target = label_text(alloc, &[], via.tag.target)?;
    out.extend_from_slice(b" via ")?;
    out.extend_from_slice(name_at(functions, via.callee))?;
    out.extend_from_slice(b" ")?;
    out.extend_from_slice(source.as_bytes())?;
    out.extend_from_slice(b" -> ")?;
    out.extend_from_slice(target.as_bytes())
}

/// Adds the line of a node.
fn add_step(
    alloc: Global,
    functions: &[CoreFunction],
    sources: &[Source],
    step: PathStep,
    out: &mut Vec<u8>,
) -> Result<(), AllocError>
    ensures { IfOk result (λ _. out.new.items ≡ out.old.items ++ step_line functions.now sources.now step) }
{
    let label = label_text(alloc, sources, step.node)?;
    out.extend_from_slice(b"  ")?;
    out.extend_from_slice(label.as_bytes())?;
    if let Some(via) = step.via {
        add_reason(alloc, functions, via, out)?;
    }
    out.extend_from_slice(b"\n")
}

/// Adds the header of a violation.
fn add_header(
    alloc: Global,
    functions: &[CoreFunction],
    sources: &[Source],
    violation: &Violation,
    out: &mut Vec<u8>,
) -> Result<(), AllocError>
    ensures { IfOk result (λ _. out.new.items ≡ out.old.items ++ header_line functions.now sources.now violation.now) }
{
    let site = named_text(alloc, sources, violation.site)?;
    out.extend_from_slice(severity_text(violation.severity).as_bytes())?;
    out.extend_from_slice(b" ")?;
    out.extend_from_slice(name_at(functions, violation.function))?;
    out.extend_from_slice(b" ")?;
    out.extend_from_slice(site.as_bytes())?;
    out.extend_from_slice(b" ")?;
    out.extend_from_slice(called_text(functions, source_at(sources, violation.site)))?;
    out.extend_from_slice(b"\n")
}

/// Adds the header and the path of a violation.
fn add_lines(
    alloc: Global,
    functions: &[CoreFunction],
    sources: &[Source],
    violation: &Violation,
    out: &mut Vec<u8>,
) -> Result<(), AllocError>
    ensures { IfOk result (λ _. out.new.items ≡ out.old.items ++ violation_lines functions.now sources.now violation.now) }
{
    add_header(alloc, functions, sources, violation, out)?;
    for step in violation.path.as_slice() {
        add_step(alloc, functions, sources, *step, out)?;
    }
    Ok(())
}

/// What is told of the statements of each function.
fn all_sources(alloc: Global, functions: &[CoreFunction]) -> Result<Vec<Vec<Source>>, AllocError>
    ensures { IfOk result (λ all. map (λ sources. sources.items) all.items ≡ map (λ function. list_sources function.body) functions.now) }
{
    let mut all = Vec::new(alloc);
    for function in functions {
        all.push(sources_of(alloc, &function.body)?)?;
    }
    Ok(all)
}

/// What is told of the statements of the function with a number, and nothing where there is none.
fn sources_at(all: &[Vec<Source>], number: u32) -> &[Source]
    ensures { result.now ≡ unwrap_or (slice_get (map (λ sources. sources.items) all.now) number) [] }
{
    match all.get(number as usize) {
        Some(sources) => sources.as_slice(),
        None => &[],
    }
}

/// The report of a check: the verdict and the counts on the first line, then each violation with its path. The violations
/// are those of the module, whose statements are numbered in structure order: a violation's site is found by its place there.
pub fn check_text(
    alloc: Global,
    checked: &CoreModule,
    violations: &[Violation],
) -> Result<Vec<u8>, AllocError>
    requires { AreNumbered checked.now.functions }
    ensures { IfOk result (λ text. text.items ≡ check_report checked.now.functions violations.now) }
{
    let functions = checked.functions.as_slice();
    let first = first_text(alloc, violations)?;
    let mut out = Vec::new(alloc);
    out.extend_from_slice(first.as_bytes())?;
    let all = all_sources(alloc, functions)?;
    for violation in violations {
        let sources = sources_at(&all, violation.function);
        add_lines(alloc, functions, sources, violation, &mut out)?;
    }
    Ok(out)
}
