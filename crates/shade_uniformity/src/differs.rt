//! Variables whose value may differ from lane to lane whatever a function does.

ghost use Rattle.std.specs.Prelude.{◌≡◌, slice_get};
ghost use Rattle.shade_uniformity.specs.RowLists.{is_writable, may_differ, param_differs, pointer_differs, root_writable, type_writable, writes_through};

use shade_core::{Base, CoreFunction, CoreModule, CoreParam, Root};
use shade_values::{Access, ShadeType, Space, TypeId, TypeTable};

/// Whether an access writes.
fn is_writable(access: Access) -> bool
    ensures { result ≡ is_writable access }
{
    match access {
        Access::Read => false,
        Access::ReadWrite => true,
    }
}

/// Whether there is a variable of the module with a number and it may be written.
fn root_is_writable(roots: &[Root], number: u32) -> bool
    ensures { result ≡ root_writable (slice_get roots.now number) }
{
    match roots.get(number as usize) {
        Some(root) => is_writable(root.access),
        None => false,
    }
}

/// Whether what a type points to may be written.
fn writes_through(ty: ShadeType) -> bool
    ensures { result ≡ writes_through ty }
{
    match ty {
        ShadeType::Pointer(_, _, access) => is_writable(access),
        _ => false,
    }
}

/// Whether there is a type with an id and what it points to may be written.
fn type_is_writable(types: &TypeTable, id: TypeId) -> bool
    ensures { result ≡ type_writable (slice_get types.now.types id.0) }
{
    if id.0 < types.count() {
        return writes_through(*types.get(id));
    }
    false
}

/// Whether what a pointer of a space and a type points to may differ.
fn pointer_differs(checked: &CoreModule, space: Space, ty: TypeId) -> bool
    ensures { result ≡ pointer_differs checked.now space ty }
{
    match space {
        Space::Private | Space::Workgroup => true,
        Space::Function | Space::Uniform => false,
        Space::Storage => type_is_writable(&checked.types, ty),
    }
}

/// Whether there is a parameter with a number and what it points to may differ.
fn param_differs(checked: &CoreModule, params: &[CoreParam], number: u32) -> bool
    ensures { result ≡ param_differs checked.now (slice_get params.now number) }
{
    match params.get(number as usize) {
        Some(CoreParam::Pointer(space, ty)) => pointer_differs(checked, *space, *ty),
        Some(CoreParam::Plain(_) | CoreParam::Input(_)) | None => false,
    }
}

/// Whether the value of a variable may differ from lane to lane whatever the function does: it is a variable of the module that may be
/// written, or what a parameter points to in the spaces private, workgroup or, with access to write, storage. Takes no memory.
pub fn may_differ(checked: &CoreModule, function: &CoreFunction, variable: Base) -> bool
    ensures { result ≡ may_differ checked.now function.now variable }
{
    match variable {
        Base::Local(_) => false,
        Base::Module(root) => root_is_writable(checked.roots.as_slice(), root),
        Base::Pointee(param) => param_differs(checked, function.params.as_slice(), param),
    }
}
