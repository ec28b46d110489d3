//! Names and filters: texts that are accepted or refused, what uses mean, and how grave violations are.

use shade_base::Severity;
use shade_lex::{Tokens, lex, templates};
use shade_parse::parse;
use shade_scope::{Meaning, ScopeFault, Scoped, resolve, severity_at};
use std::alloc::{AllocError, Global};

/// What the tokens of a text mean, where they spell a tree.
fn meaning(alloc: Global, tokens: &Tokens) -> Result<Scoped, ScopeFault> {
    let _text = tokens.text();
    let Ok(pairs) = templates(alloc, tokens) else {
        return Err(ScopeFault::NoMemory);
    };
    match parse(alloc, tokens, &pairs) {
        Ok(tree) => resolve(alloc, tree),
        Err(_) => Err(ScopeFault::NoMemory),
    }
}

fn read(alloc: Global, text: &str) -> Result<Scoped, ScopeFault> {
    if text.len() > 1_048_576 {
        return Err(ScopeFault::NoMemory);
    }
    match lex(alloc, text) {
        Ok(tokens) => meaning(alloc, &tokens),
        Err(_) => Err(ScopeFault::NoMemory),
    }
}

/// The name of a fault, with its offset, line and column.
fn told(fault: ScopeFault) -> (&'static str, (u32, u32, u32)) {
    let (kind, place) = match fault {
        ScopeFault::Unknown(place) => ("Unknown", place),
        ScopeFault::Twice(place) => ("Twice", place),
        ScopeFault::Cycle(place) => ("Cycle", place),
        ScopeFault::EntryCalled(place) => ("EntryCalled", place),
        ScopeFault::ContinueSkips(place) => ("ContinueSkips", place),
        ScopeFault::BadSeverity(place) => ("BadSeverity", place),
        ScopeFault::Conflict(place) => ("Conflict", place),
        ScopeFault::NoMemory => return ("NoMemory", (0, 0, 0)),
    };
    (kind, (place.offset, place.line, place.column))
}

fn fault(alloc: Global, text: &str) -> (&'static str, (u32, u32, u32)) {
    match read(alloc, text) {
        Ok(_) => ("accepted", (0, 0, 0)),
        Err(fault) => told(fault),
    }
}

fn kind_and_offset(alloc: Global, text: &str) -> (&'static str, u32) {
    let (kind, (offset, _, _)) = fault(alloc, text);
    (kind, offset)
}

/// Texts whose names and filters are accepted.
const ACCEPTED: &[&str] = &[
    ";",
    "const a = b; const b = 1;",
    "fn f() { g(); } fn g() { }",
    "alias A = B; alias B = u32;",
    "var<private> a: u32; fn f() { a = 1; }",
    "fn f() { let a = 1; let b = a; }",
    "fn f(a: u32) -> u32 { return a; }",
    "fn f(a: u32, b: array<u32, 4>) { _ = b[a]; }",
    "fn f() { let a = 1; { let a = a; } }",
    "fn f() { { let a = 1; } { let a = 2; } }",
    "const a = 1; fn f() { let a = a; _ = a; }",
    "fn f() { if true { let a = 1; } else if false { let a = 1; } else { let a = 1; } }",
    "fn f() { switch 1 { case 1 { let a = 1; } default { let a = 2; } } }",
    "fn f() { for (var i = 0; i < 4; i++) { let i = i; } let i = 1; }",
    "fn f() { for (let a = 1; ; ) { _ = a; } }",
    "fn f() { while true { let a = 1; _ = a; } let a = 1; }",
    "fn f() { loop { let a = 1; continuing { let a = a; break if a == 1; } } }",
    "fn f() { let u32 = 1; _ = u32; }",
    "fn min() { } fn f() { min(); }",
    "struct S { a: u32, b: S1 } struct S1 { a: u32 } fn f(s: S) { _ = s.b.a; }",
    "struct S { S: u32 }",
    "struct u32a { u32: u32 }",
    "@compute @workgroup_size(1) fn main(@builtin(local_invocation_index) i: u32) { }",
    "@id(1) override o: u32 = 1; fn f() { _ = o; }",
    "enable f16; requires a_b; const a = 1;",
    "@must_use fn f() -> u32 { return 1; } fn g() { _ = f(); }",
    "fn f(a: u32) { g(a); } fn g(b: u32) { }",
    "const_assert a == 1; const a = 1;",
    "var<workgroup> w: array<u32, n>; const n = 4;",
    "@group(g) @binding(0) var<storage, read_write> s: u32; const g = 0;",
    "diagnostic(off, lanes.uniformity); diagnostic(off, lanes.uniformity); fn f() { }",
    "diagnostic(off, a.b); diagnostic(info, a.c); diagnostic(error, a);",
    "@diagnostic(off, a.b) @diagnostic(off, a.b) fn f() { }",
    "@diagnostic(off, a.b) fn f() @diagnostic(error, a.b) { }",
    "fn f() { @diagnostic(off, a.b) if true { } @diagnostic(error, a.b) if true { } }",
    "fn f() { @diagnostic(off, x) { @diagnostic(info, x) { } } }",
    "fn f() { loop { continue; } }",
    "fn f() { loop { let a = 1; continue; continuing { _ = a; } } }",
    "fn f() { loop { continue; let a = 1; continuing { } } }",
    "fn f() { loop { if true { continue; } let a = 1; _ = a; continuing { let a = 1; _ = a; } } }",
    "fn f() { let a = 1; loop { continue; continuing { _ = a; } } }",
    "fn f() { loop { while true { continue; } let a = 1; continuing { _ = a; } } }",
    "fn f() { loop { for (;;) { continue; } let a = 1; continuing { _ = a; } } }",
    "fn f() { loop { loop { continue; } let a = 1; continuing { _ = a; } } }",
    "fn f() { loop { continue; { let a = 1; } continuing { } } }",
    "fn f() { loop { let a = 1; continuing { _ = a; loop { continue; let b = 1; continuing { _ = a; } } } } }",
    "fn f() { _ = f32(1); _ = textureLoad; discard; }",
    "fn f() { var<function> a: u32; _ = &a; }",
    "fn f(p: ptr<function, u32>) { *p = 1; }",
    "@unknown fn f() { }",
    "fn f() { for (var i = 0; ; ) { var i = i; _ = i; } }",
    "fn f() { if true { let a = 1; { let a = a; _ = a; } } let a = 2; }",
    "fn f() { switch 1 { default { let a = 1; { let a = a; } } } }",
    "fn f() { loop { let a = 1; { let a = a; } break; } let a = 1; }",
    "fn f() { loop { continuing { let a = 1; { let a = a; } } } }",
    "fn f() { let f = 1; _ = f; }",
    "fn f(f: u32) { _ = f; }",
    "struct S { a: u32 } const a = 1; fn f() { let S = 1; _ = S + a; }",
    "fn f() { loop { let a = 1; if true { continue; } let b = 1; _ = b; continuing { _ = a; } } }",
    "fn f() { loop { let a = 1; loop { continue; continuing { _ = a; } } } }",
    "@diagnostic(off, a.b, c) @diagnostic(info, a.b) fn f() { }",
    "@diagnostic(off, a.b) @diagnostic(info, a.b) var<private> c: u32;",
    "@diagnostic(off, a) @diagnostic(info, b.a) @diagnostic(error, a.b) fn f() { }",
];

#[test]
fn accepted(rt: HostRuntime) {
    let alloc = rt.alloc();
    for text in ACCEPTED {
        assert_eq!(rt; kind_and_offset(alloc, text), ("accepted", 0), "{text}");
    }
}

/// Texts that are refused, each with the first fault and its offset.
const REFUSED: &[(&str, &str, u32)] = &[
    ("const a = b;", "Unknown", 10),
    ("fn f() { x = 1; }", "Unknown", 9),
    ("fn f() { let a = a; }", "Unknown", 17),
    ("fn f() { _ = a; let a = 1; }", "Unknown", 13),
    ("fn f() { { let a = 1; } _ = a; }", "Unknown", 28),
    (
        "fn f() { if true { let a = 1; } else { _ = a; } }",
        "Unknown",
        43,
    ),
    (
        "fn f() { for (var i = 0; i < 4; i++) { } _ = i; }",
        "Unknown",
        45,
    ),
    ("fn f() { for (var i = i; ; ) { } }", "Unknown", 22),
    ("fn f() { while true { let a = 1; } _ = a; }", "Unknown", 39),
    ("fn f() { while a { let a = 1; } }", "Unknown", 15),
    ("fn f() { loop { let a = 1; } _ = a; }", "Unknown", 33),
    (
        "fn f() { loop { continuing { let a = 1; } } _ = a; }",
        "Unknown",
        48,
    ),
    (
        "fn f() { switch 1 { case 1 { let a = 1; } default { _ = a; } } }",
        "Unknown",
        56,
    ),
    (
        "fn f() { switch 1 { case a { } default { } } }",
        "Unknown",
        25,
    ),
    ("fn f(a: b, b: u32) { }", "Unknown", 8),
    ("fn f(a: u32) { } fn g() { _ = a; }", "Unknown", 30),
    ("struct S { a: u32 } fn f() { _ = a; }", "Unknown", 33),
    ("struct S { a: u32, b: a }", "Unknown", 22),
    ("fn f() { g(); }", "Unknown", 9),
    ("fn f() { g<u32>(1); }", "Unknown", 9),
    ("var<privat> a: u32;", "Unknown", 4),
    ("var<storage, readwrite> a: u32;", "Unknown", 13),
    ("@workgroup_size(n) fn f() { }", "Unknown", 16),
    ("@interpolate(flat) fn f() { }", "Unknown", 13),
    ("fn f() -> @location(n) u32 { return 1; }", "Unknown", 20),
    ("fn f() { let a: array<u32, n> = 1; }", "Unknown", 27),
    ("fn f() { ab.c = 1; }", "Unknown", 9),
    ("fn f() { let a = 1; a.b[c] = 1; }", "Unknown", 24),
    ("fn f() { return a; }", "Unknown", 16),
    ("fn f() { const_assert a; }", "Unknown", 22),
    ("fn f() { a++; }", "Unknown", 9),
    ("fn f() { a += 1; }", "Unknown", 9),
    ("fn f() { x = 1; y = 2; }", "Unknown", 9),
    ("const a = 1; const a = 2;", "Twice", 19),
    ("fn f() { } fn f() { }", "Twice", 14),
    ("const a = 1; fn a() { }", "Twice", 16),
    ("struct A { a: u32 } alias A = u32;", "Twice", 26),
    ("override o: u32; var<private> o: u32;", "Twice", 30),
    ("struct S { a: u32, a: i32 }", "Twice", 19),
    ("fn f(a: u32, a: u32) { }", "Twice", 13),
    ("fn f(a: u32) { let a = 1; }", "Twice", 19),
    ("fn f() { let a = 1; var a = 2; }", "Twice", 24),
    ("fn f() { { let a = 1; const a = 2; } }", "Twice", 28),
    (
        "fn f() { if true { } else { let a = 1; let a = 2; } }",
        "Twice",
        43,
    ),
    (
        "fn f() { loop { let a = 1; continuing { let a = 1; let a = 2; } } }",
        "Twice",
        55,
    ),
    (
        "fn f() { switch 1 { default { let a = 1; let a = 1; } } }",
        "Twice",
        45,
    ),
    ("fn f() { let a = 1; let a = b; }", "Twice", 24),
    ("const a = a;", "Cycle", 0),
    ("const a = b; const b = a;", "Cycle", 0),
    ("fn f() { f(); }", "Cycle", 0),
    (
        "fn f() { g(); } fn g() { h(); } fn h() { f(); }",
        "Cycle",
        0,
    ),
    ("alias A = array<A, 2>;", "Cycle", 0),
    ("struct S { s: S }", "Cycle", 0),
    (
        "fn e() { f(); } fn f() { g(); } fn g() { f(); }",
        "Cycle",
        16,
    ),
    (
        "const z = a; @id(1) override a: u32 = b; const b = a;",
        "Cycle",
        13,
    ),
    (
        "struct S { a: array<u32, n> } const n = m; fn f() -> S { return s(); } fn s() -> S { return f(); } const m = k(S()); fn k(s: S) -> u32 { return 1; }",
        "Cycle",
        0,
    ),
    ("@must_use fn f() -> u32 { return f(); }", "Cycle", 0),
    (
        "const a = b; const b = c; const c = 1; const d = d;",
        "Cycle",
        39,
    ),
    (
        "@compute @workgroup_size(1) fn main() { } fn f() { main(); }",
        "EntryCalled",
        51,
    ),
    (
        "@workgroup_size(1) fn main() { } fn f() { if true { main(); } }",
        "EntryCalled",
        52,
    ),
    (
        "fn f() { _ = main(1); } @compute fn main() { }",
        "EntryCalled",
        13,
    ),
    (
        "@compute fn main() { } fn f() { main<u32>(); }",
        "EntryCalled",
        32,
    ),
    (
        "fn f() { loop { continue; let a = 1; continuing { _ = a; } } }",
        "ContinueSkips",
        16,
    ),
    (
        "fn f() { loop { if true { continue; } var a = 1; continuing { a = 2; } } }",
        "ContinueSkips",
        26,
    ),
    (
        "fn f() { loop { { continue; } const a = 1; continuing { break if a == 1; } } }",
        "ContinueSkips",
        18,
    ),
    (
        "fn f() { loop { switch 1 { default { continue; } } let a = 1; continuing { { _ = a; } } } }",
        "ContinueSkips",
        37,
    ),
    (
        "fn f() { loop { let b = 1; continue; continue; let a = 1; continuing { _ = a + b; } } }",
        "ContinueSkips",
        27,
    ),
    (
        "fn f() { loop { continue; let a = 1; continuing { loop { _ = a; } } } }",
        "ContinueSkips",
        16,
    ),
    (
        "fn f() { loop { loop { continue; let a = 1; continuing { _ = a; } } continuing { } } }",
        "ContinueSkips",
        23,
    ),
    ("diagnostic(of, a.b);", "BadSeverity", 11),
    ("@diagnostic(warn, a.b) fn f() { }", "BadSeverity", 12),
    (
        "fn f() { @diagnostic(error.x, a.b) { } }",
        "BadSeverity",
        21,
    ),
    (
        "fn f() { if true { @diagnostic(1, a) loop { } } }",
        "BadSeverity",
        31,
    ),
    ("@diagnostic(none) var<private> a: u32;", "BadSeverity", 12),
    (
        "fn f() { switch 1 @diagnostic(a, b) { default { } } }",
        "BadSeverity",
        30,
    ),
    (
        "diagnostic(off, a.b); diagnostic(error, a.b);",
        "Conflict",
        22,
    ),
    (
        "@diagnostic(off, lanes.uniformity) @diagnostic(info, lanes.uniformity) fn f() { }",
        "Conflict",
        35,
    ),
    (
        "@diagnostic(off, a) @diagnostic(off, b) @diagnostic(off, a) @diagnostic(info, b) fn f() { }",
        "Conflict",
        60,
    ),
    (
        "fn f() { @diagnostic(off, a.b) @diagnostic(error, a.b) while true { } }",
        "Conflict",
        31,
    ),
    (
        "fn f() { loop @diagnostic(off, a.b) @diagnostic(warning, a.b) { } }",
        "Conflict",
        36,
    ),
    (
        "fn f() { loop { continuing @diagnostic(off, a) @diagnostic(warning, a) { } } }",
        "Conflict",
        47,
    ),
    (
        "fn f() { loop { let a = 1; { continue; } if true { continue; } let b = 1; continuing { _ = b; } } }",
        "ContinueSkips",
        29,
    ),
    (
        "fn f() { while true { loop { continue; let a = 1; continuing { _ = a; } } } }",
        "ContinueSkips",
        29,
    ),
    ("fn f() { { { g(); } } }", "Unknown", 13),
    ("fn f() { { { let a = 1; let a = 2; } } }", "Twice", 28),
    ("fn g() { } fn f() { loop { { f(); } } }", "Cycle", 11),
    (
        "fn f() { @diagnostic(off, a) @diagnostic(off, b) @diagnostic(info, b) @diagnostic(info, a) { } }",
        "Conflict",
        49,
    ),
    (
        "fn f() { switch 1 @diagnostic(off, a) @diagnostic(info, a) { default { } } }",
        "Conflict",
        38,
    ),
    (
        "diagnostic(off, a.b); enable f16; diagnostic(off, a.b); diagnostic(info, a.b);",
        "Conflict",
        56,
    ),
    (
        "@diagnostic(on, a) @diagnostic(x, b) fn f() { }",
        "BadSeverity",
        12,
    ),
    ("fn f() { f(); } const a = a;", "Cycle", 0),
    ("const a = b; const a = 1;", "Unknown", 10),
    ("const a = 1; const a = b;", "Twice", 19),
    ("fn f() { f(); x = 1; }", "Cycle", 0),
    ("const a = b; const c = c;", "Unknown", 10),
    ("@diagnostic(a, b) fn f() { g(x); }", "BadSeverity", 12),
    (
        "@compute fn main() { } fn f() { main(); x = 1; }",
        "EntryCalled",
        32,
    ),
    (
        "fn f() { loop { continue; let a = x; continuing { _ = a; } } }",
        "ContinueSkips",
        16,
    ),
    ("struct vec2 { a: vec2<i32> }", "Cycle", 0),
    ("fn min() { _ = min(1, 2); }", "Cycle", 0),
    ("alias A = i32; alias u32 = array<u32, 2>;", "Cycle", 15),
    ("requires a; const a = a;", "Cycle", 12),
    ("var<private> private: u32;", "Cycle", 0),
    (
        "diagnostic(error, lanes.uniformity); const a = b; const b = a;",
        "Cycle",
        37,
    ),
    ("const c = array<lanes, 3>(1);", "Unknown", 16),
    ("const c = 1; const d = c[0] + e[0];", "Unknown", 30),
    ("struct S { a: éu32 }", "Unknown", 14),
    (
        "fn f(@group(local_invocation_index) i: u32) { }",
        "Unknown",
        12,
    ),
    (
        "fn f() { @align(error, lanes.uniformity) { } }",
        "Unknown",
        16,
    ),
    (
        "fn f() { @const(warning, lanes.uniformity) { } }",
        "Unknown",
        16,
    ),
    (
        "fn f() { for (var i = 0u; i < 2u; workgroup_size = 1u) { } }",
        "Unknown",
        34,
    ),
    (
        "fn f() { for (var bool = 0u; i < 1u; ) { } }",
        "Unknown",
        29,
    ),
    (
        "fn f() { loop { var v = true; continuing { break if select(v, k, v); } } }",
        "Unknown",
        62,
    ),
    ("fn f() { let t1 = 1; let a = t10; }", "Unknown", 29),
    ("fn f() { _ = &info; }", "Unknown", 14),
    ("fn f(storage: i32) { let storage = 1; }", "Twice", 25),
    (
        "fn f() { while true { var<function> a: u32; } let b = 1; let b = 2; }",
        "Twice",
        61,
    ),
    (
        "@compute fn e() { } fn f() { loop { continuing { e(); } } }",
        "EntryCalled",
        49,
    ),
];

#[test]
fn refused(rt: HostRuntime) {
    let alloc = rt.alloc();
    for (text, kind, offset) in REFUSED {
        assert_eq!(rt; kind_and_offset(alloc, text), (*kind, *offset), "{text}");
    }
}

/// Texts that are refused, each with the first fault and its line and column.
const PLACES: &[(&str, &str, u32, u32)] = &[
    (
        "@compute @workgroup_size(1)\nfn main() {\n  x = 1u;\n}",
        "Unknown",
        3,
        3,
    ),
    (
        "@diagnostic(off, lanes.uniformity) @diagnostic(info, lanes.uniformity)\nfn main() {}",
        "Conflict",
        1,
        36,
    ),
    ("fn f() {\n  let a = 1;\n  let a = 2;\n}", "Twice", 3, 7),
    (
        "const a = 1;\nconst b = c; @id(1)\noverride c: u32 = b;",
        "Cycle",
        2,
        1,
    ),
    (
        "@compute fn main() { }\nfn f() {\n  main();\n}",
        "EntryCalled",
        3,
        3,
    ),
    (
        "fn f() {\n  loop {\n    if true { continue; }\n    let a = 1;\n    continuing { _ = a; }\n  }\n}",
        "ContinueSkips",
        3,
        15,
    ),
    ("enable f16;\ndiagnostic(warn, a.b);", "BadSeverity", 2, 12),
];

#[test]
fn places(rt: HostRuntime) {
    let alloc = rt.alloc();
    for (text, kind, line, column) in PLACES {
        let (have, (_, at_line, at_column)) = fault(alloc, text);
        assert_eq!(rt;
            (have, at_line, at_column),
            (*kind, *line, *column),
            "{text}"
        );
    }
}

/// What the uses of a text mean, in the order of their nodes: `p` is predeclared, and a digit the number of the declaring node.
fn meanings(alloc: Global, text: &str) -> Result<String, AllocError> {
    let mut out = String::new(alloc);
    let Ok(scoped) = read(alloc, text) else {
        return Ok(out);
    };
    for meaning in scoped.uses.as_slice() {
        match meaning {
            Some(Meaning::Declared(node)) => {
                out.push_str(format!(in alloc; "{node} ")?.as_str())?;
            }
            Some(Meaning::Predeclared) => out.push_str("p ")?,
            None => (),
        }
    }
    Ok(out)
}

/// Texts, each with what its uses mean.
const MEANINGS: &[(&str, &str)] = &[
    ("const a = 1; const b = a;", "0 "),
    ("const b = a; const a = 1;", "3 "),
    ("alias A = u32; alias u32 = i32;", "3 p "),
    ("const a = 1; fn f() { let a = a; _ = a; }", "0 4 "),
    (
        "fn f(a: u32) { let b = a; { let a = b; _ = a; } _ = a; }",
        "p 1 4 7 1 ",
    ),
    (
        "fn f() { for (var i = 0; ; i++) { let i = i; _ = i; } }",
        "1 1 4 ",
    ),
    ("fn min() { } fn f() { min(); max(1, 2); }", "0 p "),
    ("struct a { a: u32 } fn f(a: a) { _ = a.a; }", "p 0 6 "),
    (
        "fn f() { let a = 1; { let a = a; _ = a; } _ = a; }",
        "1 4 1 ",
    ),
    (
        "fn f() { let a = 1; if true { let a = 2; _ = a; } else if true { let a = 3; _ = a; } else { _ = a; } }",
        "5 12 1 ",
    ),
    (
        "fn f() { let a = 1; switch a { case a { let a = 2; _ = a; } default { _ = a; } } _ = a; }",
        "1 1 6 1 1 ",
    ),
    (
        "fn f() { let a = true; while a { let a = 1; _ = a; } _ = a; }",
        "1 5 1 ",
    ),
    (
        "fn f() { let a = 1; loop { let a = a; continuing { let a = a; break if a == 1; } } _ = a; }",
        "1 4 7 1 ",
    ),
    (
        "fn f() { for (var i = 0; i < 4; i++) { let i = true; _ = i; } }",
        "1 1 7 ",
    ),
    (
        "const a = 1; fn f(a: u32) { _ = a; } const b = a;",
        "p 4 0 ",
    ),
    (
        "const a = 1; struct S { a: u32, b: array<u32, a> }",
        "p p 0 p ",
    ),
    (
        "const g = 0; @group(g) @binding(g) var<private> v: u32;",
        "0 0 p p ",
    ),
    ("const i = 1; fn f(@builtin(i) j: u32) { _ = j; }", "p 7 "),
    (
        "struct S { a: u32 } fn f(s: S) { let a = s.a; _ = a; }",
        "p 0 6 9 ",
    ),
];

#[test]
fn meant(rt: HostRuntime) {
    let alloc = rt.alloc();
    for (text, want) in MEANINGS {
        let have = meanings(alloc, text).expect(&rt, "memory");
        assert_eq!(rt; have.as_str(), *want, "{text}");
    }
}

fn letter(severity: Severity) -> &'static str {
    match severity {
        Severity::Error => "e",
        Severity::Warning => "w",
        Severity::Info => "i",
        Severity::Off => "o",
    }
}

/// How grave violations are at the nodes of a text, in order, each run of one severity once.
fn severities(alloc: Global, text: &str) -> Result<String, AllocError> {
    let mut out = String::new(alloc);
    let Ok(scoped) = read(alloc, text) else {
        return Ok(out);
    };
    let Ok(nodes) = u32::try_from(scoped.filters.as_slice().len()) else {
        return Ok(out);
    };
    let mut last = "";
    for node in 0..nodes {
        let next = letter(severity_at(&scoped, node));
        if next != last {
            out.push_str(next)?;
            last = next;
        }
    }
    Ok(out)
}

/// Texts, each with its severities.
const SEVERITIES: &[(&str, &str)] = &[
    ("fn f() { }", "e"),
    ("diagnostic(off, lanes.uniformity); fn f() { }", "eo"),
    ("diagnostic(off, lanes.other); fn f() { }", "e"),
    ("diagnostic(off, uniformity); fn f() { }", "e"),
    (
        "@diagnostic(off, lanes.uniformity) fn f() { } fn g() { }",
        "eoe",
    ),
    (
        "diagnostic(info, lanes.uniformity); @diagnostic(off, lanes.uniformity) fn f() { } fn g() { }",
        "eioi",
    ),
    (
        "@diagnostic(error, lanes.uniformity) @compute fn f() { @diagnostic(off, lanes.uniformity) if true { g(); } } fn g() { }",
        "eoe",
    ),
    (
        "@diagnostic(off, lanes.uniformity) fn f() { @diagnostic(warning, lanes.uniformity) { } g(); } fn g() { }",
        "eowoe",
    ),
    (
        "fn f() { @diagnostic(off, lanes.uniformity) for (;;) { @diagnostic(info, lanes.uniformity) while true { } } }",
        "eoioe",
    ),
    (
        "fn f() { @diagnostic(off, lanes.uniformity) loop @diagnostic(info, lanes.uniformity) { continuing @diagnostic(warning, lanes.uniformity) { } } }",
        "eoioe",
    ),
    (
        "fn f() { @diagnostic(off, lanes.uniformity) switch 1 @diagnostic(info, lanes.uniformity) { default @diagnostic(warning, lanes.uniformity) { } } }",
        "eoiwoe",
    ),
    (
        "fn f() @diagnostic(off, lanes.uniformity) { g(); } fn g() { }",
        "eoe",
    ),
];

#[test]
fn severity(rt: HostRuntime) {
    let alloc = rt.alloc();
    for (text, want) in SEVERITIES {
        let have = severities(alloc, text).expect(&rt, "memory");
        assert_eq!(rt; have.as_str(), *want, "{text}");
    }
}
