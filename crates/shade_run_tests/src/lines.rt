//! The lines of a report that tell of memory.

ghost use Rattle.std.specs.Prelude.{◌≡◌, IfOk};

use shade_core::{CoreModule, Root};
use shade_memory::Memory;
use shade_race::{LaneAccess, Race, RacingPair};
use shade_run_lines::{add_buffers, add_races};
use shade_values::{Access, Name, Scalar, ShadeType, Space, TouchKind, TypeId, TypeTable};
use sqlite_items::Items;
use std::alloc::{AllocError, Global};
use std::test::Fail;

/// A variable whose type is the first of its table.
fn root(alloc: Global, text: &str, space: Space, access: Access) -> Result<Root, AllocError>
    ensures { IfOk result (λ root. root.ty.0 ≡ 0) }
{
    Ok(Root {
        name: Name::from_text(alloc, text)?,
        space,
        access,
        ty: TypeId(0),
        initial: None,
    })
}

/// A list of one word.
fn words(alloc: Global, word: u32) -> Result<Items<u32>, AllocError> {
    let mut words = Items::new(alloc);
    words.push(word)?;
    Ok(words)
}

#[test]
fn buffers(rt: HostRuntime) -> Result<(), Fail> {
    let alloc = rt.alloc();
    let mut types = TypeTable::new(alloc);
    let word = types.add(ShadeType::Plain(Scalar::U32))?;
    let mut roots = Items::new(alloc);
    roots.push(root(alloc, "shared", Space::Workgroup, Access::ReadWrite)?)?;
    roots.push(root(alloc, "data", Space::Storage, Access::ReadWrite)?)?;
    roots.push(root(alloc, "table", Space::Storage, Access::Read)?)?;
    let module = CoreModule {
        types,
        roots,
        functions: Items::new(alloc),
    };
    let mut handed = Items::new(alloc);
    handed.push(Items::new(alloc))?;
    handed.push(words(alloc, 4294967295)?)?;
    handed.push(words(alloc, 7)?)?;
    let memory = Memory::begin(alloc, &module, &handed)?;
    let mut out = Vec::new(alloc);
    add_buffers(alloc, module.roots.as_slice(), &memory, &mut out)?;
    let text = "buffer data 4294967295\n";
    assert_eq!(rt; out.as_slice(), text.as_bytes());
    Ok(())
}

#[test]
fn races(rt: HostRuntime) -> Result<(), Fail> {
    let alloc = rt.alloc();
    let mut roots = Items::new(alloc);
    roots.push(root(alloc, "shared", Space::Workgroup, Access::ReadWrite)?)?;
    let first = LaneAccess {
        step: 3,
        lane: 0,
        kind: TouchKind::Write,
    };
    let second = LaneAccess {
        step: 12,
        lane: 5,
        kind: TouchKind::Atomic,
    };
    let race = Race {
        root: 0,
        word: 2,
        found: RacingPair { first, second },
    };
    let mut out = Vec::new(alloc);
    add_races(alloc, roots.as_slice(), &[], &mut out)?;
    add_races(alloc, roots.as_slice(), &[race], &mut out)?;
    let text = "races 0\nraces 1\nrace shared 2 step 3 lane 0 write step 12 lane 5 atomic\n";
    assert_eq!(rt; out.as_slice(), text.as_bytes());
    Ok(())
}
