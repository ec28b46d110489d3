use super::*;
use shade_base::{MemoryShelf, MemorySink, Status};
use std::alloc::{AllocError, Global};
use std::collections::BTreeMap;
use std::test::Fail;

/// A text with this body of its function, and its first line.
fn text_of(alloc: Global, body: &str) -> Result<Vec<u8>, AllocError> {
    let text = format!(in alloc;
        "@compute @workgroup_size(2)\nfn main(@builtin(local_invocation_index) i: u32) {{\n{body}}}\n"
    )?;
    Ok(text.into_bytes())
}

/// A shelf with one text, `a.wgsl`.
fn shelf_with(alloc: Global, text: Vec<u8>, failing: Vec<u64>) -> Result<MemoryShelf, AllocError> {
    let mut texts = BTreeMap::new(alloc);
    let _ = texts.insert(String::from_str(alloc, "a.wgsl")?, text)?;
    Ok(MemoryShelf::new(alloc, texts, failing))
}

fn words_of(alloc: Global, words: &[&str]) -> Result<Vec<String>, AllocError> {
    let mut list = Vec::new(alloc);
    for word in words {
        list.push(String::from_str(alloc, word)?)?;
    }
    Ok(list)
}

/// What a check of the text prints, and its status.
fn checked(alloc: Global, text: Vec<u8>) -> Result<(Status, MemorySink), AllocError> {
    let mut shelf = shelf_with(alloc, text, Vec::new(alloc))?;
    let mut out = MemorySink::new(alloc, 4096, Vec::new(alloc))?;
    let status = serve(
        alloc,
        &words_of(alloc, &["check", "a.wgsl"])?,
        &mut shelf,
        &mut out,
    );
    Ok((status, out))
}

#[test]
fn verdicts(rt: HostRuntime) -> Result<(), Fail> {
    let alloc = rt.alloc();
    let accepted = "accepted errors 0 warnings 0 infos 0\n";
    let rows: [(&str, u8, &str); 8] = [
        ("  workgroupBarrier();\n", 0, accepted),
        // the clean first form
        ("  if (i < 1u) { }\n  workgroupBarrier();\n", 0, accepted),
        // the divergent first form
        (
            "  if (i < 1u) {\n    workgroupBarrier();\n  }\n",
            1,
            "rejected errors 1 warnings 0 infos 0\nerror main #2 4:5 workgroupBarrier\n  required error\n  control before #2 4:5\n  part 0 of #1 3:3\n  value #0 3:9\n  parameter 0\n  non-uniform\n",
        ),
        // an early barrier before a divergent one
        (
            "  workgroupBarrier();\n  if (i < 1u) {\n    workgroupBarrier();\n  }\n",
            1,
            "rejected errors 1 warnings 0 infos 0\nerror main #3 5:5 workgroupBarrier\n  required error\n  control before #3 5:5\n  part 0 of #2 4:3\n  value #1 4:9\n  parameter 0\n  non-uniform\n",
        ),
        // nested branches
        (
            "  if (i < 1u) {\n    if (i < 2u) { workgroupBarrier(); }\n  }\n",
            1,
            "rejected errors 1 warnings 0 infos 0\nerror main #4 4:19 workgroupBarrier\n  required error\n  control before #4 4:19\n  part 0 of #3 4:5\n  value #2 4:11\n  parameter 0\n  non-uniform\n",
        ),
        // two barriers in one branch
        (
            "  if (i < 1u) {\n    workgroupBarrier(); workgroupBarrier();\n  }\n",
            1,
            "rejected errors 2 warnings 0 infos 0\nerror main #2 4:5 workgroupBarrier\n  required error\n  control before #2 4:5\n  part 0 of #1 3:3\n  value #0 3:9\n  parameter 0\n  non-uniform\nerror main #3 4:25 workgroupBarrier\n  required error\n  control before #3 4:25\n  control after #2 4:5\n  control before #2 4:5\n  part 0 of #1 3:3\n  value #0 3:9\n  parameter 0\n  non-uniform\n",
        ),
        ("", 0, accepted),
        ("  return;\n", 2, "refused notyet 81\n"),
    ];
    for (body, status, text) in rows {
        let (got, out) = checked(alloc, text_of(alloc, body)?)?;
        assert_eq!(rt; got, Status(status), "{body}");
        assert_eq!(rt; out.bytes(), text.as_bytes(), "{body}");
    }
    Ok(())
}

/// What a run of the text by the job prints, and its status; the job may be absent. The reads of these numbers fail.
fn ran(
    alloc: Global,
    text: Vec<u8>,
    job: Option<&str>,
    failing: Vec<u64>,
) -> Result<(Status, MemorySink), AllocError> {
    let mut texts = BTreeMap::new(alloc);
    let _ = texts.insert(String::from_str(alloc, "a.wgsl")?, text)?;
    if let Some(job) = job {
        let steps = String::from_str(alloc, job)?.into_bytes();
        let _ = texts.insert(String::from_str(alloc, "a.job")?, steps)?;
    }
    let mut shelf = MemoryShelf::new(alloc, texts, failing);
    let mut out = MemorySink::new(alloc, 4096, Vec::new(alloc))?;
    let words = words_of(alloc, &["run", "a.wgsl", "a.job"])?;
    let status = serve(alloc, &words, &mut shelf, &mut out);
    Ok((status, out))
}

#[test]
fn runs(rt: HostRuntime) -> Result<(), Fail> {
    let alloc = rt.alloc();
    let clean = "  if (i < 1u) { }\n  workgroupBarrier();\n";
    let rows: [(&str, Option<&str>, u8, &str); 8] = [
        // the stuttering list
        (
            clean,
            Some("0\n0\n0\n0\n1\n1\n1\n0\n1\n"),
            0,
            "run ended steps 9 stutters 1\nreleased 1\nrelease 0 main#2()\nraces 0\n",
        ),
        // the empty job
        (
            clean,
            Some(""),
            9,
            "run spent steps 0 stutters 0\nreleased 0\nraces 0\n",
        ),
        // steps after the end, and two barriers in turn
        (
            "  workgroupBarrier();\n  workgroupBarrier();\n",
            Some("0\n1\n1\n0\n1\n0\n0\n"),
            0,
            "run ended steps 7 stutters 1\nreleased 2\nrelease 0 main#0()\nrelease 1 main#1()\nraces 0\n",
        ),
        (clean, Some("2\n"), 4, "refused job / J1\n"),
        (clean, Some("0"), 4, "refused job / J1\n"),
        // the job of a rejected shader is not read
        (
            "  if (i < 1u) {\n    workgroupBarrier();\n  }\n",
            None,
            1,
            "rejected errors 1 warnings 0 infos 0\nerror main #2 4:5 workgroupBarrier\n  required error\n  control before #2 4:5\n  part 0 of #1 3:3\n  value #0 3:9\n  parameter 0\n  non-uniform\n",
        ),
        ("  return;\n", None, 2, "refused notyet 81\n"),
        (clean, None, 5, "fault read a.job\n"),
    ];
    for (body, job, status, text) in rows {
        let (got, out) = ran(alloc, text_of(alloc, body)?, job, Vec::new(alloc))?;
        assert_eq!(rt; got, Status(status), "{body}");
        assert_eq!(rt; out.bytes(), text.as_bytes(), "{body}");
    }
    Ok(())
}

/// The second read of a run is that of its job: the shader is read once.
#[test]
fn a_job_that_cannot_be_read(rt: HostRuntime) -> Result<(), Fail> {
    let alloc = rt.alloc();
    let text = text_of(alloc, "  workgroupBarrier();\n")?;
    let (got, out) = ran(alloc, text, Some(""), vec![in alloc; 1]?)?;
    assert_eq!(rt; got, Status::UNREAD);
    assert_eq!(rt; out.bytes(), b"fault read a.job\n".as_slice());
    Ok(())
}

/// The text of an entry without parameters, with this line in its body.
fn line_text(alloc: Global, line: &str) -> Result<Vec<u8>, AllocError> {
    let text = format!(in alloc; "@compute @workgroup_size(1)\nfn main() {{\n{line}\n}}\n")?;
    Ok(text.into_bytes())
}

/// Texts that have no tokens; each row tells its line.
#[test]
fn texts_without_tokens(rt: HostRuntime) -> Result<(), Fail> {
    let alloc = rt.alloc();
    let rows: [(&[u8], &str); 9] = [
        (b"\xFF", "refused utf8 0\n"),
        // a text that ends within a character
        (b"fn f() {}\xE2\x82", "refused utf8 9\n"),
        // UTF-8 comes before the tokens
        (b"/* x \xC3", "refused utf8 5\n"),
        (b"/* x", "refused lex 1:1 OpenComment\n"),
        (b"fn f() {\n  #\n}", "refused lex 2:3 BadCharacter\n"),
        // a column counts bytes: the word before the `#` has two
        (b"\xC3\xA9 #", "refused lex 1:4 BadCharacter\n"),
        (b"const c = 01;", "refused lex 1:11 BadNumber\n"),
        (
            b"const c = 4294967296u;",
            "refused lex 1:11 NumberTooLarge\n",
        ),
        // tokens come before syntax
        (b"fn fn fn 1.5", "refused lex 1:10 FloatLiteral\n"),
    ];
    for (text, line) in rows {
        let (got, out) = checked(alloc, text.to_vec(alloc)?)?;
        assert_eq!(rt; got, Status(2), "{line}");
        assert_eq!(rt; out.bytes(), line.as_bytes(), "{line}");
    }
    let (got, out) = checked(alloc, line_text(alloc, "  var x = 1.5;")?)?;
    assert_eq!(rt; got, Status(2));
    assert_eq!(rt; out.bytes(), b"refused lex 3:11 FloatLiteral\n".as_slice());
    Ok(())
}

/// Texts that are not of the first form, by the line in their body; each row tells where they are refused.
#[test]
fn refused_lines(rt: HostRuntime) -> Result<(), Fail> {
    let alloc = rt.alloc();
    let rows: [(&str, &str); 5] = [
        ("  if true { 1u }", "refused syntax 3:13 Unexpected\n"),
        ("  x = (1u;", "refused syntax 3:10 Unexpected\n"),
        // what comes after syntax is not asked yet
        ("  var x: f32;", "refused notyet 36\n"),
        ("  x = 1u;", "refused notyet 36\n"),
        ("", "refused notyet 36\n"),
    ];
    for (body, line) in rows {
        let (got, out) = checked(alloc, line_text(alloc, body)?)?;
        assert_eq!(rt; got, Status(2), "{line}");
        assert_eq!(rt; out.bytes(), line.as_bytes(), "{line}");
    }
    Ok(())
}

/// A text of some pieces: one, so many of another, so many of a third, and its end.
fn pieces_of(
    alloc: Global,
    front: &str,
    middle: (&str, usize),
    back: (&str, usize),
) -> Result<Vec<u8>, AllocError> {
    let middle = middle.0.repeat(alloc, middle.1)?;
    let back = back.0.repeat(alloc, back.1)?;
    let text = format!(in alloc; "{front}{middle}{back}")?;
    Ok(text.into_bytes())
}

/// Texts at the limits of length, of braces and of the chain; each row tells its line.
#[test]
fn limits(rt: HostRuntime) -> Result<(), Fail> {
    let alloc = rt.alloc();
    let bare = "@compute @workgroup_size(1)\nfn main() {}\n";
    let rows: [(&str, (&str, usize), (&str, usize), &str); 11] = [
        (bare, (" ", 1_048_536), ("", 0), "refused length\n"),
        // the length comes before UTF-8 and the tokens
        ("#", (" ", 1_048_576), ("", 0), "refused length\n"),
        (bare, (" ", 0), ("", 0), "refused notyet 36\n"),
        (bare, (" ", 1_048_535), ("", 0), "refused notyet 4096\n"),
        ("fn f() ", ("{", 127), ("}", 127), "refused notyet 0\n"),
        (
            "fn f() ",
            ("{", 128),
            ("}", 128),
            "refused syntax 1:135 TooDeep\n",
        ),
        ("const c = 1", ("+1", 1023), (";", 1), "refused notyet 0\n"),
        (
            "const c = 1",
            ("+1", 1024),
            (";", 1),
            "refused syntax 1:2059 TooDeep\n",
        ),
        (
            "const c = 1 + ;",
            ("", 0),
            ("", 0),
            "refused syntax 1:15 Unexpected\n",
        ),
        ("fn f(", ("", 0), ("", 0), "refused syntax 1:6 Unexpected\n"),
        ("fn f() -> u32 {}", ("", 0), ("", 0), "refused notyet 0\n"),
    ];
    for (front, middle, back, line) in rows {
        let (got, out) = checked(alloc, pieces_of(alloc, front, middle, back)?)?;
        assert_eq!(rt; got, Status(2), "{line}");
        assert_eq!(rt; out.bytes(), line.as_bytes(), "{line}");
    }
    Ok(())
}

/// A sink that fails its first write after three bytes.
#[test]
fn a_refusal_cut_short(rt: HostRuntime) -> Result<(), Fail> {
    let alloc = rt.alloc();
    let mut shelf = shelf_with(alloc, line_text(alloc, "")?, Vec::new(alloc))?;
    let mut out = MemorySink::new(alloc, 4096, vec![in alloc; (0, 3)]?)?;
    let words = words_of(alloc, &["check", "a.wgsl"])?;
    assert_eq!(rt; serve(alloc, &words, &mut shelf, &mut out), Status(6));
    assert_eq!(rt; out.bytes(), b"ref".as_slice());
    Ok(())
}

#[test]
fn other_statuses(rt: HostRuntime) -> Result<(), Fail> {
    let alloc = rt.alloc();
    let rows: [(&[&str], u8, &str); 10] = [
        (&[], 3, "bad words\n"),
        (&["check"], 3, "bad words\n"),
        (&["Check", "a.wgsl"], 3, "bad words\n"),
        (&["check", "b.wgsl"], 5, "fault read b.wgsl\n"),
        // the second read fails
        (&["check", "a.wgsl"], 5, "fault read a.wgsl\n"),
        // the sixth write fails after three bytes
        (&["check", "a.wgsl"], 6, "acc"),
        (&["run", "a.wgsl"], 3, "bad words\n"),
        (&["run", "b.wgsl", "a.job"], 5, "fault read b.wgsl\n"),
        (&["run", "a.wgsl", "a.job"], 5, "fault read a.job\n"),
        // the tenth write fails after four bytes
        (&["run", "a.wgsl", "a.job"], 6, "faul"),
    ];
    let mut shelf = shelf_with(alloc, text_of(alloc, "")?, vec![in alloc; 1]?)?;
    let mut out = MemorySink::new(alloc, 4096, vec![in alloc; (5, 3), (9, 4)]?)?;
    let mut before = 0;
    for (words, status, text) in rows {
        let got = serve(alloc, &words_of(alloc, words)?, &mut shelf, &mut out);
        assert_eq!(rt; got, Status(status), "{text}");
        assert_eq!(rt; out.bytes().get(before..), Some(text.as_bytes()));
        before = out.bytes().len();
    }
    Ok(())
}
