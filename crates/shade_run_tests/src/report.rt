//! The report of a run.

use crate::group::begin;
use shade_base::Severity;
use shade_report::run_text;
use shade_samples::{BarrierAt, branching};
use shade_values::Op;
use std::test::Fail;

/// Steps of lanes, with the report of the run.
const RUNS: &[(&[u32], &str)] = &[
    (&[], "run spent steps 0 stutters 0\nreleased 0\nraces 0\n"),
    (
        &[0, 0, 0, 0],
        "run spent steps 4 stutters 1\nreleased 0\nraces 0\n",
    ),
    (
        &[0, 0, 0, 1, 1, 1],
        "run diverged steps 6 stutters 0\nlane 0 at main#2()\nlane 1 ended\nreleased 0\nraces 0\n",
    ),
];

#[test]
fn runs(rt: HostRuntime) -> Result<(), Fail> {
    let alloc = rt.alloc();
    let module = branching(alloc, Op::Less, Severity::Warning, BarrierAt::Within)?;
    for (numbers, text) in RUNS {
        let mut group = begin(&rt, alloc, &module)?;
        for number in *numbers {
            assert!(rt; *number < group.lanes(), "{numbers:?}");
            let _ = group.step(*number)?;
        }
        let told = run_text(alloc, &module, &group)?;
        assert_eq!(rt; told.as_slice(), text.as_bytes(), "{numbers:?}");
    }
    Ok(())
}
