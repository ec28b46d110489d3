//! Memory at its start.

use shade_core::CoreModule;
use shade_mem::Memory;
use shade_values::TypeTable;
use sqlite_items::Items;
use std::test::Fail;

#[test]
fn memory_without_roots(rt: HostRuntime) -> Result<(), Fail> {
    let alloc = rt.alloc();
    let module = CoreModule {
        types: TypeTable::new(alloc),
        roots: Items::new(alloc),
        functions: Items::new(alloc),
    };
    let _ = Memory::begin(alloc, &module, &Items::new(alloc))?;
    Ok(())
}
