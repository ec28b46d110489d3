//! The types of a shader: scalars, vectors, arrays, structs, pointers.

/// A scalar type. `Abstract` is the type of whole-number constants without a suffix, 64 bits wide.
#[derive(Clone, Copy, Debug, PartialEq, Eq)]
pub enum Scalar {
    Bool,
    I32,
    U32,
    Abstract,
}

/// An address space of WGSL.
#[derive(Clone, Copy, Debug, PartialEq, Eq)]
pub enum Space {
    Function,
    Private,
    Workgroup,
    Uniform,
    Storage,
}

/// What a shader may do with the memory of a variable.
#[derive(Clone, Copy, Debug, PartialEq, Eq)]
pub enum Access {
    Read,
    ReadWrite,
}

/// The number of a type in its table.
#[derive(Clone, Copy, Debug, PartialEq, Eq)]
pub struct TypeId(pub u32);

/// A type, whose parts are named by their ids.
#[derive(Clone, Copy, Debug, PartialEq, Eq)]
pub enum ShadeType {
    Plain(Scalar),
    /// The number of parts, from 2 to 4, and what each is.
    Vector(u8, Scalar),
    /// The element, and how many there are.
    Array(TypeId, u32),
    /// An array whose number of elements the buffer decides.
    RuntimeArray(TypeId),
    Atomic(Scalar),
    /// The number of the struct.
    Struct(u32),
    /// The result of `atomicCompareExchangeWeak`: the old value, and whether it was exchanged.
    Exchanged(Scalar),
    Pointer(Space, TypeId, Access),
}

/// How a type lies in memory, in bytes. `stride` is the distance of two elements, and 0 for a type without elements.
#[derive(Clone, Copy, Debug, PartialEq, Eq)]
pub struct Layout {
    pub size: u64,
    pub align: u64,
    pub stride: u64,
}
