//! The races of a run.

ghost use Rattle.std.specs.Prelude.{◌≡◌, ◌++◌, length, IfOk};
ghost use Rattle.std.specs.List.{flat_map};
ghost use Rattle.shade_run_lines.specs.Races.{access_text, kind_word, race_line, race_lines, root_name};

use shade_core::Root;
use shade_race::{LaneAccess, Race};
use shade_values::TouchKind;
use std::alloc::{AllocError, Global};

fn kind_text(kind: TouchKind) -> &'static str
    ensures { result.now ≡ kind_word kind }
{
    match kind {
        TouchKind::Read => "read",
        TouchKind::Write => "write",
        TouchKind::Atomic => "atomic",
    }
}

/// The name of the variable with a number, and nothing where there is none.
fn name_at(roots: &[Root], number: u32) -> &[u8]
    ensures { result.now ≡ root_name roots.now number }
{
    match roots.get(number as usize) {
        Some(root) => root.name.as_slice(),
        None => b"",
    }
}

/// Adds one of the two accesses of a race.
fn add_access(alloc: Global, access: LaneAccess, out: &mut Vec<u8>) -> Result<(), AllocError>
    ensures { IfOk result (λ _. out.new.items ≡ out.old.items ++ access_text access) }
{
    let step = access.step;
    let lane = access.lane;
    let kind = kind_text(access.kind);
    let text = format!(in alloc; " step {step} lane {lane} {kind}")?;
    out.extend_from_slice(text.as_bytes())
}

/// Adds the line of a race.
fn add_race(alloc: Global, roots: &[Root], race: Race, out: &mut Vec<u8>) -> Result<(), AllocError>
    ensures { IfOk result (λ _. out.new.items ≡ out.old.items ++ race_line roots.now race) }
{
    let word = race.word;
    let number = format!(in alloc; " {word}")?;
    out.extend_from_slice(b"race ")?;
    out.extend_from_slice(name_at(roots, race.root))?;
    out.extend_from_slice(number.as_bytes())?;
    add_access(alloc, race.found.first, out)?;
    add_access(alloc, race.found.second, out)?;
    out.extend_from_slice(b"\n")
}

/// Adds how many races there are, and a line for each, in their order. Takes memory for the lines; an error comes where that is
/// wanting.
pub fn add_races(
    alloc: Global,
    roots: &[Root],
    races: &[Race],
    out: &mut Vec<u8>,
) -> Result<(), AllocError>
    ensures { IfOk result (λ _. out.new.items ≡ out.old.items ++ race_lines roots.now races.now) }
{
    let count = races.len();
    let first = format!(in alloc; "races {count}\n")?;
    out.extend_from_slice(first.as_bytes())?;
    for race in races {
        add_race(alloc, roots, *race, out)?;
    }
    Ok(())
}
