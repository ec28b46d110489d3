//! The words that no declaration may take.

ghost use Rattle.std.specs.Prelude.{◌≡◌, map, nat_eq};
ghost use Rattle.std.specs.List.{list_any};
ghost use Rattle.std.specs.Cmp.Lexicographic.{pointwise};
ghost use Rattle.shade_first.specs.Reserved.{keywords, types_and_spaces, functions, out_of_profile, is_reserved, is_one_of};

const KEYWORDS: [&[u8]; 26] = [
    b"alias",
    b"break",
    b"case",
    b"const",
    b"const_assert",
    b"continue",
    b"continuing",
    b"default",
    b"diagnostic",
    b"discard",
    b"else",
    b"enable",
    b"false",
    b"fn",
    b"for",
    b"if",
    b"let",
    b"loop",
    b"override",
    b"requires",
    b"return",
    b"struct",
    b"switch",
    b"true",
    b"var",
    b"while",
];

const TYPES_AND_SPACES: [&[u8]; 23] = [
    b"bool",
    b"i32",
    b"u32",
    b"vec2",
    b"vec3",
    b"vec4",
    b"vec2i",
    b"vec3i",
    b"vec4i",
    b"vec2u",
    b"vec3u",
    b"vec4u",
    b"array",
    b"atomic",
    b"ptr",
    b"function",
    b"private",
    b"workgroup",
    b"uniform",
    b"storage",
    b"read",
    b"write",
    b"read_write",
];

const FUNCTIONS: [&[u8]; 33] = [
    b"bitcast",
    b"all",
    b"any",
    b"select",
    b"abs",
    b"sign",
    b"min",
    b"max",
    b"clamp",
    b"dot",
    b"countOneBits",
    b"countLeadingZeros",
    b"countTrailingZeros",
    b"reverseBits",
    b"firstLeadingBit",
    b"firstTrailingBit",
    b"extractBits",
    b"insertBits",
    b"arrayLength",
    b"atomicLoad",
    b"atomicStore",
    b"atomicAdd",
    b"atomicSub",
    b"atomicMax",
    b"atomicMin",
    b"atomicAnd",
    b"atomicOr",
    b"atomicXor",
    b"atomicExchange",
    b"atomicCompareExchangeWeak",
    b"workgroupBarrier",
    b"storageBarrier",
    b"workgroupUniformLoad",
];

const OUT_OF_PROFILE: [&[u8]; 36] = [
    b"f32",
    b"f16",
    b"vec2f",
    b"vec3f",
    b"vec4f",
    b"vec2h",
    b"vec3h",
    b"vec4h",
    b"mat2x2",
    b"mat2x3",
    b"mat2x4",
    b"mat3x2",
    b"mat3x3",
    b"mat3x4",
    b"mat4x2",
    b"mat4x3",
    b"mat4x4",
    b"sampler",
    b"sampler_comparison",
    b"texture_2d",
    b"texture_storage_2d",
    b"textureLoad",
    b"textureStore",
    b"textureSample",
    b"textureBarrier",
    b"dpdx",
    b"dpdy",
    b"fwidth",
    b"sqrt",
    b"sin",
    b"cos",
    b"pow",
    b"floor",
    b"ceil",
    b"exp",
    b"log",
];

/// Whether a word is a keyword or predeclared.
pub fn is_reserved(word: &[u8]) -> bool
    ensures { result ≡ is_reserved word.now }
{
    is_keyword(word) || is_type_or_space(word) || is_function(word) || is_out_of_profile(word)
}

fn is_keyword(word: &[u8]) -> bool
    ensures { result ≡ is_one_of keywords word.now }
{
    is_among(&KEYWORDS, word)
}

fn is_type_or_space(word: &[u8]) -> bool
    ensures { result ≡ is_one_of types_and_spaces word.now }
{
    is_among(&TYPES_AND_SPACES, word)
}

fn is_function(word: &[u8]) -> bool
    ensures { result ≡ is_one_of functions word.now }
{
    is_among(&FUNCTIONS, word)
}

fn is_out_of_profile(word: &[u8]) -> bool
    ensures { result ≡ is_one_of out_of_profile word.now }
{
    is_among(&OUT_OF_PROFILE, word)
}

fn is_among(words: &[&[u8]], word: &[u8]) -> bool
    ensures { result ≡ is_one_of (map (λ w. w.now) words.now) word.now }
{
    words.contains(&word)
}
