//! The texts of barrier instances.

ghost use Rattle.std.specs.Prelude.{◌≡◌, ◌<◌, ◌++◌, ◌∷◌, [], codes, length, IfOk, MatchOption};
ghost use Rattle.std.specs.Fmt.{decimal};
ghost use Rattle.std.specs.List.{join_by};
ghost use Rattle.shade_report.specs.Frames.{FramesAreRead, frame_seen};
ghost use Rattle.shade_report.specs.RunReport.{frame_text, frames_of, instance_text};

use crate::check_report::name_at;
use shade_core::CoreFunction;
use std::alloc::{AllocError, Global};

/// A call that is open at an instance, or the function that holds the barrier: its number, that of the statement that
/// stands there, and the counts of the open loops, the outermost first.
#[derive(Clone, Copy)]
pub(crate) struct OpenFrame<'a> {
    function: u32,
    statement: u32,
    turns: &'a [u32],
}

/// The outermost frame of an instance, and the words of the others.
fn first_frame(words: &[u32]) -> Option<(OpenFrame, &[u32])>
    ensures { MatchOption result (frames_of words.now ≡ []) (λ found. (frames_of words.now ≡ frame_seen found.0 ∷ frames_of found.1.now) × (length found.1.now < length words.now)) }
{
    let [function, statement, loops, rest @ ..] = words else {
        return None;
    };
    let count = *loops as usize;
    if rest.len() < count {
        return None;
    }
    let (turns, others) = rest.split_at(count);
    Some((
        OpenFrame {
            function: *function,
            statement: *statement,
            turns,
        },
        others,
    ))
}

/// Adds a word and a number behind it.
pub(crate) fn add_number(
    alloc: Global,
    word: &str,
    number: u64,
    out: &mut Vec<u8>,
) -> Result<(), AllocError>
    ensures { IfOk result (λ _. out.new.items ≡ out.old.items ++ (word.now ++ decimal number)) }
{
    let text = format!(in alloc; "{word}{number}")?;
    out.extend_from_slice(text.as_bytes())
}

/// Adds the counts of loops, with commas between.
fn add_turns(alloc: Global, turns: &[u32], out: &mut Vec<u8>) -> Result<(), AllocError>
    ensures { IfOk result (λ _. out.new.items ≡ out.old.items ++ join_by decimal (codes ",") turns.now) }
{
    let Some((first, others)) = turns.split_first() else {
        return Ok(());
    };
    add_number(alloc, "", u64::from(*first), out)?;
    for turn in others {
        add_number(alloc, ",", u64::from(*turn), out)?;
    }
    Ok(())
}

/// Adds a frame.
fn add_frame(
    alloc: Global,
    functions: &[CoreFunction],
    frame: OpenFrame,
    out: &mut Vec<u8>,
) -> Result<(), AllocError>
    ensures { IfOk result (λ _. out.new.items ≡ out.old.items ++ frame_text functions.now (frame_seen frame.entry)) }
{
    out.extend_from_slice(name_at(functions, frame.function))?;
    add_number(alloc, "#", u64::from(frame.statement), out)?;
    out.extend_from_slice(b"(")?;
    add_turns(alloc, frame.turns, out)?;
    out.extend_from_slice(b")")
}

/// Adds the text of an instance: its frames, with slashes between.
pub(crate) fn add_instance(
    alloc: Global,
    functions: &[CoreFunction],
    words: &[u32],
    out: &mut Vec<u8>,
) -> Result<(), AllocError>
    ensures { IfOk result (λ _. out.new.items ≡ out.old.items ++ instance_text functions.now words.now) }
{
    let Some((first, others)) = first_frame(words) else {
        return Ok(());
    };
    add_frame(alloc, functions, first, out)?;
    let mut rest = others;
    'frames: while let Some((frame, later)) = first_frame(rest) {
        out.extend_from_slice(b"/")?;
        add_frame(alloc, functions, frame, out)?;
        rest = later;
    }
    Ok(())
}

/// The frames that write the words of an instance are those that a report reads from them, so that the words tell them; and a frame writes
/// as many words as the limit on instances counts.
pub fn frames_are_read()
    ensures { FramesAreRead }
{}
