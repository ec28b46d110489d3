//! Whole texts: how many directives, declarations and names they have, or where they are refused.

use crate::reading::place;
use shade_lex::{lex, templates};
use shade_parse::parse;
use shade_parse_expr::SyntaxFault;
use std::alloc::{AllocError, Global};

fn read(alloc: Global, text: &str) -> Result<(usize, usize, usize), SyntaxFault> {
    if text.len() > 1_048_576 {
        return Err(SyntaxFault::NoMemory);
    }
    let Ok(tokens) = lex(alloc, text) else {
        return Err(SyntaxFault::NoMemory);
    };
    let Ok(pairs) = templates(alloc, &tokens) else {
        return Err(SyntaxFault::NoMemory);
    };
    let tree = parse(alloc, &tokens, &pairs)?;
    Ok((tree.directives.len(), tree.decls.len(), tree.names.len()))
}

/// Texts that are accepted.
const ACCEPTED: &[(&str, (usize, usize, usize))] = &[
    ("", (0, 0, 0)),
    (";", (0, 1, 0)),
    (
        "enable f; requires a, b,; diagnostic(off, a.b,); ;",
        (3, 1, 4),
    ),
    (
        "@group(0) @binding(1,) var<storage, read_write,> w: array<u32> = 1;",
        (0, 1, 7),
    ),
    (
        "alias A = u32; const a: A = 1; const_assert a < 2;",
        (0, 3, 3),
    ),
    (
        "@id(1) override o: u32 = 2; struct S { @size(4) a: u32, b: S, }",
        (0, 2, 7),
    ),
    (
        "@compute fn f(@a b: u32, c: u32,) -> @d u32 { return b; }",
        (0, 1, 7),
    ),
    (
        "@const fn f() { ; { } @a { } f(); return; discard; }",
        (0, 1, 2),
    ),
    (
        "fn f() { if a { } else if b { } else if c { } else { } }",
        (0, 1, 4),
    ),
    (
        "fn f() { switch a { case 1, default, { } default: @b { } } }",
        (0, 1, 3),
    ),
    (
        "fn f() { loop { break; continuing { a = 1; break; break if b; } } }",
        (0, 1, 3),
    ),
    (
        "fn f() { for (var i = 0; i < 4; i++) { continue; } for (;;) { } while a { } }",
        (0, 1, 3),
    ),
    (
        "fn f() { var a: u32; const b = 1; let c = 2; _ = 3; const_assert d; }",
        (0, 1, 6),
    ),
    (
        "fn f() { a >>= 1; *a.b += 2; (a)[0]--; v<u>(1); a <<= 1; }",
        (0, 1, 5),
    ),
];

#[test]
fn accepted(rt: HostRuntime) {
    let alloc = rt.alloc();
    for (text, want) in ACCEPTED {
        assert_eq!(rt; read(alloc, text), Ok(*want), "{text}");
    }
}

/// Texts that spell no tree, each with the offset of the token that is told.
const UNEXPECTED: &[(&str, u32)] = &[
    ("1", 0),
    ("@a", 2),
    ("@a;", 2),
    ("fn f(", 5),
    ("const x = 1", 11),
    ("const c = 1 + ;", 14),
    ("const c = 1; enable f;", 13),
    ("const_assert true", 17),
    ("alias A = ;", 10),
    ("override o: u32", 15),
    ("var<private x: u32;", 3),
    ("diagnostic(off);", 14),
    ("enable ;", 7),
    ("requires a b;", 11),
    ("struct S { }", 11),
    ("struct S { a: u32,, }", 18),
    ("fn f() -> {}", 10),
    ("fn f(a: u32 b: u32) {}", 12),
    ("fn f() { f(); } }", 16),
    ("fn f() { if true { 1u } }", 19),
    ("fn f() { x > 1; }", 13),
    ("fn f() { x >> = 1; }", 14),
    ("fn f() { a && b; }", 11),
    ("fn f() { x = a && b || c; }", 20),
    ("fn f() { x++ }", 13),
    ("fn f() { _ x; }", 11),
    ("fn f() { let x; }", 14),
    ("fn f() { return 1 }", 18),
    ("fn f() { @a x = 1; }", 12),
    ("fn f() { else { } }", 9),
    ("fn f() { if x { } else y }", 23),
    ("fn f() { break if x; }", 15),
    ("fn f() { loop { break if x; } }", 22),
    ("fn f() { loop { continuing { break if x; y = 1; } } }", 41),
    ("fn f() { loop { continuing { } a(); } }", 31),
    ("fn f() { switch x { 1: {} } }", 20),
    ("fn f() { switch x { case { } } }", 25),
    ("fn f() { for (;) { } }", 15),
    ("fn f() { for (;;) a; }", 18),
    ("fn f() { while { } }", 15),
    ("fn f() { { ", 11),
];

#[test]
fn unexpected(rt: HostRuntime) {
    let alloc = rt.alloc();
    for (text, at) in UNEXPECTED {
        assert_eq!(rt;
            read(alloc, text),
            Err(SyntaxFault::Unexpected(place(*at))),
            "{text}"
        );
    }
}

/// A text between two others, which is repeated.
fn repeated(
    alloc: Global,
    front: &str,
    part: &str,
    count: usize,
    back: &str,
) -> Result<String, AllocError> {
    let mut text = String::new(alloc);
    text.push_str(front)?;
    for _ in 0..count {
        text.push_str(part)?;
    }
    text.push_str(back)?;
    Ok(text)
}

#[test]
fn too_deep(rt: HostRuntime) {
    let alloc = rt.alloc();
    let cases = [
        ("fn f() ", "{", 128, "", 134),
        ("const c = 1", "+1", 1024, ";", 2058),
        ("const c = ", "(", 128, "", 137),
        ("fn f() { if a { } ", "else if a { } ", 1024, "}", 14348),
    ];
    for (front, part, count, back, at) in cases {
        let text = repeated(alloc, front, part, count, back).expect(&rt, "memory");
        assert_eq!(rt;
            read(alloc, &text),
            Err(SyntaxFault::TooDeep(place(at))),
            "{front}"
        );
    }
}

#[test]
fn as_deep_as_can_be(rt: HostRuntime) {
    let alloc = rt.alloc();
    let cases = [
        ("fn f() { ", "{", "}", 126, (0, 1, 1)),
        ("fn f() { if a { } ", "else if a { } ", "", 1023, (0, 1, 2)),
        ("fn f() { a = 1 ", "+1", "", 1023, (0, 1, 2)),
    ];
    for (front, part, back, count, want) in cases {
        let end = if back.is_empty() { "; }" } else { " }" };
        let closers = repeated(alloc, "", back, count, end).expect(&rt, "memory");
        let text = repeated(alloc, front, part, count, &closers).expect(&rt, "memory");
        assert_eq!(rt; read(alloc, &text), Ok(want), "{front}");
    }
}
