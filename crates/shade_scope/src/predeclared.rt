//! The words that mean something without a declaration.

ghost use Rattle.std.specs.Prelude.{◌≡◌};
ghost use Rattle.shade_events.specs.Words.{is_word};
ghost use Rattle.shade_scope.specs.Predeclared.{type_words, function_words, other_words, is_predeclared, is_predeclared_name};

use shade_ast::Names;
use shade_events::text_of;

fn is_type_word(text: &str) -> bool
    ensures { result ≡ is_word type_words text.now }
{
    match text {
        "bool"
        | "i32"
        | "u32"
        | "vec2"
        | "vec3"
        | "vec4"
        | "vec2i"
        | "vec3i"
        | "vec4i"
        | "vec2u"
        | "vec3u"
        | "vec4u"
        | "array"
        | "atomic"
        | "ptr"
        | "function"
        | "private"
        | "workgroup"
        | "uniform"
        | "storage"
        | "read"
        | "write"
        | "read_write" => true,
        _ => false,
    }
}

fn is_function_word(text: &str) -> bool
    ensures { result ≡ is_word function_words text.now }
{
    match text {
        "bitcast"
        | "all"
        | "any"
        | "select"
        | "abs"
        | "sign"
        | "min"
        | "max"
        | "clamp"
        | "dot"
        | "countOneBits"
        | "countLeadingZeros"
        | "countTrailingZeros"
        | "reverseBits"
        | "firstLeadingBit"
        | "firstTrailingBit"
        | "extractBits"
        | "insertBits"
        | "arrayLength"
        | "atomicLoad"
        | "atomicStore"
        | "atomicAdd"
        | "atomicSub"
        | "atomicMax"
        | "atomicMin"
        | "atomicAnd"
        | "atomicOr"
        | "atomicXor"
        | "atomicExchange"
        | "atomicCompareExchangeWeak"
        | "workgroupBarrier"
        | "storageBarrier"
        | "workgroupUniformLoad" => true,
        _ => false,
    }
}

fn is_other_word(text: &str) -> bool
    ensures { result ≡ is_word other_words text.now }
{
    match text {
        "f32"
        | "f16"
        | "vec2f"
        | "vec3f"
        | "vec4f"
        | "vec2h"
        | "vec3h"
        | "vec4h"
        | "mat2x2"
        | "mat2x3"
        | "mat2x4"
        | "mat3x2"
        | "mat3x3"
        | "mat3x4"
        | "mat4x2"
        | "mat4x3"
        | "mat4x4"
        | "sampler"
        | "sampler_comparison"
        | "texture_2d"
        | "texture_storage_2d"
        | "textureLoad"
        | "textureStore"
        | "textureSample"
        | "textureBarrier"
        | "dpdx"
        | "dpdy"
        | "fwidth"
        | "sqrt"
        | "sin"
        | "cos"
        | "pow"
        | "floor"
        | "ceil"
        | "exp"
        | "log" => true,
        _ => false,
    }
}

fn is_predeclared(text: &str) -> bool
    ensures { result ≡ is_predeclared text.now }
{
    if is_type_word(text) {
        return true;
    }
    if is_function_word(text) {
        return true;
    }
    is_other_word(text)
}

/// Whether a name means something without a declaration.
pub fn is_predeclared_name(names: &Names, name: u32) -> bool
    ensures { result ≡ is_predeclared_name names.now name }
{
    match text_of(names, name) {
        Some(text) => is_predeclared(text),
        None => false,
    }
}
