//! Jobs: texts of lane numbers, and JSON texts.

use shade_base::Place;
use shade_core::{CoreFunction, CoreModule, Root};
use shade_job::{
    Job, JobFault, JobRefusal, Schedule, mix, pick_by_list, pick_by_seed, pick_in_turn, read_job,
    read_steps,
};
use shade_values::{Access, Name, Scalar, ShadeType, Space, TypeId, TypeTable};
use sqlite_items::Items;
use std::alloc::{AllocError, Global};
use std::test::Fail;

/// Jobs of three lanes, with their steps.
const JOBS: &[(&[u8], Option<&[u32]>)] = &[
    (b"", Some(&[])),
    (b"0\n2\n1\n", Some(&[0, 2, 1])),
    (b"3\n", None),
    (b"00\n", None),
    (b"1", None),
    (b"1\n\n", None),
    (b"1\r\n", None),
    (b"4294967296\n", None),
];

fn steps_are(alloc: Global, bytes: &[u8], want: Option<&[u32]>) -> bool {
    match (read_steps(alloc, bytes, 3), want) {
        (Ok(steps), Some(want)) => steps.as_slice() == want,
        (Err(fault), None) => fault == JobFault::Form,
        _ => false,
    }
}

#[test]
fn steps_of_three_lanes(rt: HostRuntime) -> Result<(), Fail> {
    for (bytes, want) in JOBS {
        assert!(rt; steps_are(rt.alloc(), bytes, *want));
    }
    Ok(())
}

/// The members of a job that every rule takes, each with its text.
const MEMBERS: &[(&str, &str)] = &[
    ("version", "1"),
    ("entry", "\"main\""),
    ("groups", "[2,3,1]"),
    ("group", "[1,2,0]"),
    ("buffers", "{\"data\":[7],\"pair\":[1,2]}"),
    ("schedule", "\"lanes\""),
    ("steps", "10"),
];

/// A job with one member changed, left out where its text is empty, or added; the pointer and the number of the rule that it breaks,
/// which is 0 where it breaks none.
type Row = (&'static str, &'static str, &'static str, u8);

const ROWS: &[Row] = &[
    ("steps", "10", "", 0),
    ("steps", "0", "", 0),
    ("steps", "10000000", "", 0),
    ("steps", "10000001", "/steps", 9),
    ("steps", "-1", "/steps", 9),
    ("steps", "1.0", "/steps", 9),
    ("steps", "1e3", "/steps", 9),
    ("steps", "-0", "/steps", 9),
    ("steps", "\"10\"", "/steps", 9),
    ("steps", "", "", 9),
    ("version", "2", "", 0),
    ("version", "3", "/version", 2),
    ("version", "0", "/version", 2),
    ("version", "1.0", "/version", 2),
    ("version", "null", "/version", 2),
    ("version", "", "", 2),
    ("entry", "\"helper\"", "/entry", 3),
    ("entry", "\"none\"", "/entry", 3),
    ("entry", "[\"main\"]", "/entry", 3),
    ("entry", "", "", 3),
    ("groups", "[2,3]", "/groups", 4),
    ("groups", "[2,3,1,1]", "/groups", 4),
    ("groups", "{}", "/groups", 4),
    ("groups", "[2,0,65536]", "/groups/1", 4),
    ("groups", "[65535,65535,65536]", "/groups/2", 4),
    ("groups", "[65535,65535,65535]", "", 0),
    ("groups", "[2,3,1.0]", "/groups/2", 4),
    ("groups", "", "", 4),
    ("group", "[2,2,0]", "/group/0", 5),
    ("group", "[1,3,1]", "/group/1", 5),
    ("group", "[0,0,-0]", "/group/2", 5),
    ("group", "[0,-1,0]", "/group/1", 5),
    ("group", "[0,0]", "/group", 5),
    ("group", "", "", 5),
    ("buffers", "[]", "/buffers", 6),
    ("buffers", "{\"data\":[7]}", "/buffers", 6),
    (
        "buffers",
        "{\"data\":[7],\"pair\":[1,2],\"none\":0}",
        "/buffers/none",
        6,
    ),
    ("buffers", "{\"shared\":[],\"none\":0}", "/buffers/none", 6),
    ("buffers", "{\"shared\":[7]}", "/buffers/shared", 6),
    ("buffers", "{\"a~/b\":[7]}", "/buffers/a~0~1b", 6),
    ("buffers", "", "", 6),
    (
        "buffers",
        "{\"pair\":[1,2],\"data\":[]}",
        "/buffers/data",
        7,
    ),
    (
        "buffers",
        "{\"pair\":[\"\",2],\"data\":[7,8,9]}",
        "/buffers/pair/0",
        7,
    ),
    (
        "buffers",
        "{\"pair\":[1],\"data\":[0.5]}",
        "/buffers/data/0",
        7,
    ),
    (
        "buffers",
        "{\"pair\":[\"\"],\"data\":[7]}",
        "/buffers/pair",
        7,
    ),
    ("buffers", "{\"pair\":7,\"data\":[7]}", "/buffers/pair", 7),
    (
        "buffers",
        "{\"pair\":[-2147483648,4294967295],\"data\":[7]}",
        "",
        0,
    ),
    (
        "buffers",
        "{\"pair\":[-2147483649,0],\"data\":[7]}",
        "/buffers/pair/0",
        7,
    ),
    (
        "buffers",
        "{\"pair\":[0,4294967296],\"data\":[7]}",
        "/buffers/pair/1",
        7,
    ),
    (
        "buffers",
        "{\"pair\":[0,1],\"data\":[-0]}",
        "/buffers/data/0",
        7,
    ),
    ("buffers", "{\"pair\":0,\"data\":[7],\"pair\":[1,2]}", "", 0),
    ("schedule", "\"round\"", "", 0),
    ("schedule", "\"rounds\"", "/schedule", 8),
    ("schedule", "null", "/schedule", 8),
    ("schedule", "{}", "/schedule", 8),
    ("schedule", "{\"seed\":1,\"picks\":[0]}", "/schedule", 8),
    ("schedule", "{\"other\":1}", "/schedule", 8),
    ("schedule", "{\"seed\":18446744073709551615}", "", 0),
    (
        "schedule",
        "{\"seed\":18446744073709551616}",
        "/schedule/seed",
        8,
    ),
    ("schedule", "{\"seed\":-1}", "/schedule/seed", 8),
    ("schedule", "{\"seed\":\"\",\"seed\":2}", "", 0),
    ("schedule", "{\"picks\":[5,0,4294967295]}", "", 0),
    ("schedule", "{\"picks\":[]}", "/schedule/picks", 8),
    (
        "schedule",
        "{\"picks\":[0,4294967296]}",
        "/schedule/picks/1",
        8,
    ),
    ("schedule", "{\"list\":[3,0]}", "/steps", 9),
    ("schedule", "{\"list\":[3,4]}", "/schedule/list/1", 8),
    ("schedule", "{\"list\":4}", "/schedule/list", 8),
    ("schedule", "{\"runs\":[[0,1]]}", "/schedule", 8),
    ("schedule", "", "", 8),
    ("", "0", "/", 10),
    ("a/b~c", "0", "/a~1b~0c", 10),
    ("Steps", "0", "/Steps", 10),
    ("\\u0000", "0", "/\x00", 10),
];

/// The same of version 2, without `steps`.
const SECOND: &[(&str, &str)] = &[
    ("version", "2"),
    ("entry", "\"main\""),
    ("groups", "[2,3,1]"),
    ("group", "[1,2,0]"),
    ("buffers", "{\"data\":[7],\"pair\":[1,2]}"),
    ("schedule", "\"lanes\""),
];

/// Jobs of version 2 by their schedules, without `steps`.
const RUNS: &[Row] = &[
    ("schedule", "{\"runs\":[]}", "", 0),
    ("schedule", "{\"runs\":[[3,2],[0,1],[3,1]]}", "", 0),
    ("schedule", "{\"runs\":[[0,10000000]]}", "", 0),
    (
        "schedule",
        "{\"runs\":[[0,9999999],[1,2]]}",
        "/schedule/runs",
        8,
    ),
    (
        "schedule",
        "{\"runs\":[[0,10000001]]}",
        "/schedule/runs/0/1",
        8,
    ),
    (
        "schedule",
        "{\"runs\":[[0,1],[4,0]]}",
        "/schedule/runs/1/0",
        8,
    ),
    (
        "schedule",
        "{\"runs\":[[0,1],[3,0]]}",
        "/schedule/runs/1/1",
        8,
    ),
    ("schedule", "{\"runs\":[[0,1],[3]]}", "/schedule/runs/1", 8),
    ("schedule", "{\"runs\":[[0,1,1]]}", "/schedule/runs/0", 8),
    ("schedule", "{\"runs\":{}}", "/schedule/runs", 8),
    ("schedule", "{\"list\":[0,0,3]}", "", 0),
    ("schedule", "\"round\"", "", 9),
];

/// Texts that are no JSON object.
const TEXTS: &[&[u8]] = &[
    b"",
    b"[]",
    b"7",
    b"{\"version\":1",
    b"{\"version\":1e400}",
    b"{\"version\":1}}",
    b"\xff",
];

const NOWHERE: Place = Place {
    offset: 0,
    line: 1,
    column: 1,
};

fn function(
    alloc: Global,
    name: &str,
    entry: Option<[u32; 3]>,
) -> Result<CoreFunction, AllocError> {
    Ok(CoreFunction {
        name: Name::from_text(alloc, name)?,
        place: NOWHERE,
        params: Items::new(alloc),
        locals: Items::new(alloc),
        result: None,
        entry,
        body: Items::new(alloc),
    })
}

fn root(alloc: Global, name: &str, space: Space, ty: TypeId) -> Result<Root, AllocError> {
    Ok(Root {
        name: Name::from_text(alloc, name)?,
        space,
        access: Access::ReadWrite,
        ty,
        initial: None,
    })
}

/// A module of one entry of four lanes, with `data` of a runtime-sized array of words, `pair` of two words, and `shared`, which lies in
/// workgroup memory.
fn shader(alloc: Global) -> Result<CoreModule, Fail> {
    let mut types = TypeTable::new(alloc);
    let word = types.add(ShadeType::Plain(Scalar::U32))?;
    let rest = types.add(ShadeType::RuntimeArray(word))?;
    let pair = types.add(ShadeType::Array(word, 2))?;
    let mut roots = Items::new(alloc);
    roots.push(root(alloc, "shared", Space::Workgroup, word)?)?;
    roots.push(root(alloc, "pair", Space::Uniform, pair)?)?;
    roots.push(root(alloc, "data", Space::Storage, rest)?)?;
    let mut functions = Items::new(alloc);
    functions.push(function(alloc, "helper", None)?)?;
    functions.push(function(alloc, "main", Some([2, 2, 1]))?)?;
    Ok(CoreModule {
        types,
        roots,
        functions,
    })
}

/// Adds a member, where its text is not empty.
fn add_member(out: &mut String, name: &str, text: &str) -> Result<(), AllocError> {
    if text.is_empty() {
        return Ok(());
    }
    if out.len() > 1 {
        out.push_str(",")?;
    }
    out.push_str("\"")?;
    out.push_str(name)?;
    out.push_str("\":")?;
    out.push_str(text)
}

/// The job of some members where one is changed, or added.
fn job_with(
    alloc: Global,
    members: &[(&str, &str)],
    changed: &str,
    text: &str,
) -> Result<String, AllocError> {
    let mut out = String::from_str(alloc, "{")?;
    let mut known = false;
    for (name, usual) in members {
        let same = *name == changed;
        known = known || same;
        add_member(&mut out, name, if same { text } else { usual })?;
    }
    if !known {
        add_member(&mut out, changed, text)?;
    }
    out.push_str("}")?;
    Ok(out)
}

/// Whether a text breaks this rule first, at this pointer; rule 0 stands for none.
fn breaks(alloc: Global, module: &CoreModule, bytes: &[u8], pointer: &str, number: u8) -> bool {
    match read_job(alloc, bytes, module) {
        Ok(_) => number == 0,
        Err(JobRefusal::Rule { pointer: at, rule }) => {
            rule.number() == number && at.as_slice() == pointer.as_bytes()
        }
        Err(JobRefusal::NoMemory) => false,
    }
}

fn row_holds(
    alloc: Global,
    module: &CoreModule,
    members: &[(&str, &str)],
    row: &Row,
) -> Result<bool, AllocError> {
    let (changed, text, pointer, number) = *row;
    let job = job_with(alloc, members, changed, text)?;
    Ok(breaks(alloc, module, job.as_bytes(), pointer, number))
}

#[test]
fn rules_on_jobs(rt: HostRuntime) -> Result<(), Fail> {
    let alloc = rt.alloc();
    let module = shader(alloc)?;
    for row in ROWS {
        assert!(rt; row_holds(alloc, &module, MEMBERS, row)?);
    }
    for row in RUNS {
        assert!(rt; row_holds(alloc, &module, SECOND, row)?);
    }
    for text in TEXTS {
        assert!(rt; breaks(alloc, &module, text, "", 1));
    }
    Ok(())
}

/// A job whose version lies in so many lists.
fn nested(alloc: Global, lists: u32) -> Result<String, AllocError> {
    let mut out = String::from_str(alloc, "{\"version\":")?;
    'opened: for _at in 0..lists {
        out.push_str("[")?;
    }
    'closed: for _at in 0..lists {
        out.push_str("]")?;
    }
    out.push_str("}")?;
    Ok(out)
}

/// A job that every rule takes, with blanks behind it up to a length.
fn padded(alloc: Global, length: usize) -> Result<String, AllocError> {
    let mut out = job_with(alloc, MEMBERS, "steps", "10")?;
    'blanks: for _at in out.len()..length {
        out.push_str(" ")?;
    }
    Ok(out)
}

/// A list of so many zeros, at least one, between two texts.
fn zeros(alloc: Global, before: &str, count: u32, after: &str) -> Result<String, AllocError> {
    let mut out = String::from_str(alloc, before)?;
    out.push_str("[0")?;
    'items: for _at in 1..count {
        out.push_str(",0")?;
    }
    out.push_str("]")?;
    out.push_str(after)?;
    Ok(out)
}

/// Members with a list of so many zeros between two texts; the pointer and the number of the rule that the job breaks.
const LONG: &[(&str, &str, u32, &str, &str, u8)] = &[
    ("schedule", "{\"picks\":", 65_536, "}", "", 0),
    ("schedule", "{\"picks\":", 65_537, "}", "/schedule/picks", 8),
    (
        "buffers",
        "{\"pair\":[1,2],\"data\":",
        1_048_574,
        "}",
        "",
        0,
    ),
    (
        "buffers",
        "{\"pair\":[1,2],\"data\":",
        1_048_575,
        "}",
        "/buffers",
        7,
    ),
];

#[test]
fn limits_of_lists(rt: HostRuntime) -> Result<(), Fail> {
    let alloc = rt.alloc();
    let module = shader(alloc)?;
    for (member, before, count, after, pointer, number) in LONG {
        let text = zeros(alloc, before, *count, after)?;
        let job = job_with(alloc, MEMBERS, member, text.as_str())?;
        assert!(rt;
            breaks(alloc, &module, job.as_bytes(), pointer, *number),
            "{count}"
        );
    }
    Ok(())
}

/// Lists that the version of a job lies in, which itself is one more level, each with the pointer and the rule that it breaks.
const DEPTHS: &[(u32, &str, u8)] = &[(126, "/version", 2), (127, "", 1)];

/// Lengths of a job, each with the rule that it breaks.
const LENGTHS: &[(usize, u8)] = &[(16_777_216, 0), (16_777_217, 1)];

#[test]
fn limits_of_texts(rt: HostRuntime) -> Result<(), Fail> {
    let alloc = rt.alloc();
    let module = shader(alloc)?;
    for (lists, pointer, number) in DEPTHS {
        let job = nested(alloc, *lists)?;
        assert!(rt;
            breaks(alloc, &module, job.as_bytes(), pointer, *number),
            "{lists}"
        );
    }
    for (length, number) in LENGTHS {
        let job = padded(alloc, *length)?;
        assert!(rt;
            breaks(alloc, &module, job.as_bytes(), "", *number),
            "{length}"
        );
    }
    Ok(())
}

/// Schedules of jobs of version 2, and the lists that they are.
const LISTS: &[(&str, &[u32])] = &[
    ("{\"runs\":[]}", &[]),
    ("{\"runs\":[[3,2],[0,1],[3,1]]}", &[3, 3, 0, 3]),
    ("{\"list\":[0,0,3]}", &[0, 0, 3]),
];

fn is_list(schedule: &Schedule, steps: &[u32]) -> bool {
    match schedule {
        Schedule::List(list) => list.as_slice() == steps,
        _ => false,
    }
}

/// Whether the schedule of a job is this list, whose length is the limit of steps.
fn lists(alloc: Global, module: &CoreModule, bytes: &[u8], steps: &[u32]) -> bool {
    match read_job(alloc, bytes, module) {
        Ok(job) => is_list(&job.schedule, steps) && job.steps == steps.len() as u64,
        Err(_) => false,
    }
}

#[test]
fn lists_of_steps(rt: HostRuntime) -> Result<(), Fail> {
    let alloc = rt.alloc();
    let module = shader(alloc)?;
    for (text, steps) in LISTS {
        let job = job_with(alloc, SECOND, "schedule", text)?;
        assert!(rt; lists(alloc, &module, job.as_bytes(), steps), "{text}");
    }
    Ok(())
}

fn has_words(words: &Items<Items<u32>>, root: usize, want: &[u32]) -> bool {
    match words.get(root) {
        Some(list) => list.as_slice() == want,
        None => false,
    }
}

/// Whether a job has what its text says.
fn is_whole(job: &Job) -> bool {
    job.inputs.entry == 1
        && job.inputs.groups == [2, 3, 1]
        && job.inputs.group == [1, 2, 0]
        && has_words(&job.inputs.words, 0, &[])
        && has_words(&job.inputs.words, 1, &[2_147_483_648, 4_294_967_295])
        && has_words(&job.inputs.words, 2, &[4_294_967_295])
        && job.steps == 10
}

#[test]
fn parts_of_a_job(rt: HostRuntime) -> Result<(), Fail> {
    let alloc = rt.alloc();
    let module = shader(alloc)?;
    let words = "{\"pair\":[-2147483648,4294967295],\"data\":[-1]}";
    let text = job_with(alloc, MEMBERS, "buffers", words)?;
    match read_job(alloc, text.as_bytes(), &module) {
        Ok(job) => assert!(rt; is_whole(&job)),
        Err(_) => assert!(rt; false),
    }
    Ok(())
}

#[test]
fn picks(rt: HostRuntime) -> Result<(), Fail> {
    assert_eq!(rt; Schedule::Lanes.pick(7, 5), 0);
    assert_eq!(rt; Schedule::Round.pick(7, 5), 2);
    assert_eq!(rt; Schedule::Seed(1).pick(0, 64), 22);
    assert_eq!(rt; Schedule::Seed(1).pick(1, 64), 44);
    assert_eq!(rt; Schedule::Seed(u64::MAX).pick(1, 256), 191);
    assert_eq!(rt; pick_in_turn(7, 5), 2);
    assert_eq!(rt; mix(7, 3), 1_134_330_529);
    assert_eq!(rt; pick_by_seed(7, 3, 5), 4);
    assert_eq!(rt; pick_by_list(&[5, 0, 11], 4, 4), 0);
    assert_eq!(rt; pick_by_list(&[5, 0, 11], 5, 4), 3);
    let mut list = Items::new(rt.alloc());
    list.push(5)?;
    list.push(0)?;
    list.push(11)?;
    let schedule = Schedule::Picks(list);
    assert_eq!(rt; schedule.pick(5, 4), 3);
    Ok(())
}
