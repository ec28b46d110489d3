//! The words of buffers.

ghost use Rattle.std.specs.Prelude.{◌≡◌, ◌<◌, ◌≤◌, ◌^◌, ◌++◌, length, IfOk};
ghost use Rattle.std.specs.List.{flat_map};
ghost use Rattle.shade_run_lines.specs.Buffers.{buffer_line, buffer_lines, buffer_part, is_told, word_text};

use shade_core::Root;
use shade_memory::Memory;
use shade_values::{Access, Space};
use std::alloc::{AllocError, Global};

/// Whether the words of a variable in this space, with this access, are told.
fn is_told(space: Space, access: Access) -> bool
    ensures { result ≡ is_told space access }
{
    match (space, access) {
        (Space::Storage, Access::ReadWrite) => true,
        _ => false,
    }
}

/// Adds a word as a decimal, with a space before it.
fn add_word(alloc: Global, word: u32, out: &mut Vec<u8>) -> Result<(), AllocError>
    ensures { IfOk result (λ _. out.new.items ≡ out.old.items ++ word_text word) }
{
    let text = format!(in alloc; " {word}")?;
    out.extend_from_slice(text.as_bytes())
}

/// Adds words.
fn add_words(alloc: Global, words: &[u32], out: &mut Vec<u8>) -> Result<(), AllocError>
    ensures { IfOk result (λ _. out.new.items ≡ out.old.items ++ flat_map word_text words.now) }
{
    for word in words {
        add_word(alloc, *word, out)?;
    }
    Ok(())
}

/// Adds the line of a buffer that holds these words.
fn add_buffer(
    alloc: Global,
    root: &Root,
    words: &[u32],
    out: &mut Vec<u8>,
) -> Result<(), AllocError>
    ensures { IfOk result (λ _. out.new.items ≡ out.old.items ++ buffer_line root.now words.now) }
{
    out.extend_from_slice(b"buffer ")?;
    out.extend_from_slice(root.name.as_slice())?;
    add_words(alloc, words, out)?;
    out.extend_from_slice(b"\n")
}

/// Adds the line of a variable that holds these words, where it has one.
fn add_told(alloc: Global, root: &Root, words: &[u32], out: &mut Vec<u8>) -> Result<(), AllocError>
    ensures { IfOk result (λ _. out.new.items ≡ out.old.items ++ buffer_part root.now words.now) }
{
    if is_told(root.space, root.access) {
        add_buffer(alloc, root, words, out)?;
    }
    Ok(())
}

/// Adds a line for each buffer that a shader may write, in the order of the variables: its name and its words. There are fewer
/// than 2^32 variables, and the memory has words of each. Takes memory for the lines; an error comes where that is wanting.
pub fn add_buffers(
    alloc: Global,
    roots: &[Root],
    memory: &Memory,
    out: &mut Vec<u8>,
) -> Result<(), AllocError>
    requires few { length roots.now < 2 ^ 32 }
    requires words { length roots.now ≤ length memory.now }
    ensures { IfOk result (λ _. out.new.items ≡ out.old.items ++ buffer_lines memory.now 0 roots.now) }
{
    for number in 0..roots.len() {
        add_told(alloc, &roots[number], memory.words(number as u32), out)?;
    }
    Ok(())
}
