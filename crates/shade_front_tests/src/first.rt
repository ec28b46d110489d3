//! Texts of the first form, and where others leave it.

use shade_core::{Act, CoreStatement, Statements};
use shade_first::{FirstFault, first_form};
use std::alloc::{AllocError, Global};
use std::process::Abort;
use std::test::Fail;

const PARAMETERS: &str = "(@builtin(local_invocation_index) i: u32) {";

fn leaves(rt: &impl Abort, alloc: Global, parts: &[&str], offset: u32) -> Result<(), AllocError> {
    let mut text = String::new(alloc);
    for part in parts {
        text.push_str(part)?;
    }
    let answer = first_form(alloc, text.as_bytes());
    assert!(rt; matches!(&answer, Err(FirstFault::NotYet(at)) if *at == offset));
    Ok(())
}

#[test]
fn leaves_the_form_in_the_head(rt: HostRuntime) -> Result<(), Fail> {
    let alloc = rt.alloc();
    let texts = [
        ("", 0),
        ("@comput", 1),
        ("@compute @workgroup_size(2)\n", 28),
        ("@compute @workgroup_size(1)\nfn main() {}\n", 36),
    ];
    for (text, offset) in texts {
        leaves(&rt, alloc, &[text], offset)?;
    }
    for lanes in ["0", "257", "2u", "02", "4294967297"] {
        let parts = [
            "@compute @workgroup_size(",
            lanes,
            ")\nfn main",
            PARAMETERS,
            "}",
        ];
        leaves(&rt, alloc, &parts, 25)?;
    }
    for name in ["loop", "max", "_f"] {
        let parts = ["@compute @workgroup_size(2)\nfn ", name, PARAMETERS, "}"];
        leaves(&rt, alloc, &parts, 31)?;
    }
    let parameter = "fn f(@builtin(local_invocation_index) vec2: u32) {}";
    leaves(
        &rt,
        alloc,
        &["@compute @workgroup_size(2)\n", parameter],
        66,
    )?;
    Ok(())
}

#[test]
fn leaves_the_form_in_the_body(rt: HostRuntime) -> Result<(), Fail> {
    let alloc = rt.alloc();
    let bodies = [
        ("if (j < 1u) {}}", 82),
        ("if (i < 1) {}}", 86),
        ("if (i < 01u) {}}", 86),
        ("if (i < 4294967296u) {}}", 86),
        ("if (i < 1ub) {}}", 88),
        ("workgroupBarrier()}", 96),
        ("storageBarrier();}", 78),
        ("workgroupBarrier();} }", 99),
        ("é}", 78),
        ("workgroupBarrier();", 97),
        ("if (i < 1u) {}", 92),
    ];
    for (body, offset) in bodies {
        let parts = ["@compute @workgroup_size(2)\nfn main", PARAMETERS, body];
        leaves(&rt, alloc, &parts, offset)?;
    }
    Ok(())
}

// The statements one after another: the number of each, its place and what it does.
fn listed(alloc: Global, statements: &Statements, out: &mut String) -> Result<(), AllocError> {
    for CoreStatement { number, place, act } in statements.as_slice() {
        let line = place.line;
        let column = place.column;
        let word = match act {
            Act::Set { .. } => "set",
            Act::If { .. } => "if",
            Act::Barrier { .. } => "barrier",
            Act::Return { .. } => "return",
            _ => "other",
        };
        out.push_str(format!(in alloc; "#{number} {line}:{column} {word}\n")?.as_str())?;
        if let Act::If { yes, no, .. } = act {
            listed(alloc, yes, out)?;
            listed(alloc, no, out)?;
        }
    }
    Ok(())
}

#[test]
fn modules(rt: HostRuntime) -> Result<(), Fail> {
    let alloc = rt.alloc();
    let table: [(&str, u32, &str); 3] = [
        (
            "@compute @workgroup_size(2)\nfn main(@builtin(local_invocation_index) i: u32) {\n  if (i < 1u) {\n    workgroupBarrier();\n  }\n}\n",
            2,
            "#0 3:9 set\n#1 3:3 if\n#2 4:5 barrier\n#3 6:1 return\n",
        ),
        (
            "@compute @workgroup_size(256)\r\nfn main(@builtin(local_invocation_index) main: u32)\r{ if (main < 0u) { }\r\n\x0bworkgroupBarrier(); }",
            256,
            "#0 3:12 set\n#1 3:3 if\n#2 5:1 barrier\n#3 5:21 return\n",
        ),
        (
            "@compute@workgroup_size(1)fn f(@builtin(local_invocation_index)i:u32){}",
            1,
            "#0 1:71 return\n",
        ),
    ];
    for (text, lanes, want) in table {
        let Ok(module) = first_form(alloc, text.as_bytes()) else {
            return Err(Fail::new("no module"));
        };
        for function in module.functions.as_slice() {
            let mut out = String::new(alloc);
            listed(alloc, &function.body, &mut out)?;
            assert_eq!(rt; out.as_str(), want);
            assert!(rt; function.entry == Some([lanes, 1, 1]));
        }
        assert_eq!(rt; module.functions.len(), 1);
    }
    Ok(())
}

#[test]
fn open_braces(rt: HostRuntime) -> Result<(), Fail> {
    let alloc = rt.alloc();
    for (depth, answer) in [(126, None), (127, Some(70 + 126 * 10))] {
        let mut text = String::from_str(
            alloc,
            "@compute@workgroup_size(2)fn f(@builtin(local_invocation_index)i:u32){",
        )?;
        for _ in 0..depth {
            text.push_str("if(i<1u){ ")?;
        }
        for _ in 0..depth {
            text.push_str("}")?;
        }
        text.push_str("}")?;
        match first_form(alloc, text.as_bytes()) {
            Ok(_) => assert!(rt; answer.is_none()),
            Err(fault) => assert!(rt; answer.map(FirstFault::NotYet) == Some(fault)),
        }
    }
    Ok(())
}
