//! Violations, their sites and their paths.

use shade_base::Severity;
use shade_core::{CoreModule, all_have_rules};
use shade_graph::Node;
use shade_samples::{barrier, branch, compare, entry_of, only};
use shade_values::Op;
use shade_verdict::{Violation, violations_of};
use sqlite_items::Items;
use std::alloc::Global;
use std::process::Abort;
use std::test::Fail;

/// An entry whose body is a barrier, and then `count` times `if (i < 1u) { workgroupBarrier(); }`.
fn divergent(alloc: Global, count: u32) -> Result<CoreModule, Fail> {
    let mut body = Items::new(alloc);
    body.push(barrier(0, Severity::Error))?;
    for turn in 0..count.min(1000) {
        let first = 3 * turn + 1;
        compare(alloc, &mut body, first, Op::Less, 1)?;
        let yes = only(alloc, barrier(first + 2, Severity::Error))?;
        branch(alloc, &mut body, first + 1, yes)?;
    }
    entry_of(alloc, body)
}

const COUNTS: &[(u32, usize)] = &[(0, 0), (1, 1), (2, 2), (200, 200)];

/// The path of the second violation.
const SECOND: &[Node] = &[
    Node::Required(Severity::Error),
    Node::Before(6),
    Node::Part(5, 0),
    Node::Value(4),
    Node::Param(0),
    Node::NonUniform,
];

/// The violations of a module, which has to have rules.
fn violations(
    rt: &impl Abort,
    alloc: Global,
    checked: &CoreModule,
) -> Result<Vec<Violation>, Fail> {
    assert!(rt; all_have_rules(checked));
    assert!(rt; checked.functions.len() <= u32::MAX as usize);
    Ok(violations_of(alloc, checked)?)
}

#[test]
fn barriers_under_divergent_branches(rt: HostRuntime) -> Result<(), Fail> {
    let alloc = rt.alloc();
    for (count, want) in COUNTS {
        let module = divergent(alloc, *count)?;
        let found = violations(&rt, alloc, &module)?;
        assert_eq!(rt; found.len(), *want);
    }
    let module = divergent(alloc, 2)?;
    let found = violations(&rt, alloc, &module)?;
    let second = found.get(1).ok_or("one violation alone")?;
    assert_eq!(rt; second.site, 6);
    assert_eq!(rt; second.path.len(), SECOND.len());
    for (step, node) in second.path.as_slice().iter().zip(SECOND) {
        assert_eq!(rt; step.node, *node);
    }
    Ok(())
}
