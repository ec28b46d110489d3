//! Reads the first form of shaders: one entry that takes the local invocation index, with barriers and branches on that
//! index.
#![tactic(auto)]

ghost use Rattle.std.specs.Prelude.{◌≡◌, MatchOption, MatchResult, slice_get};
ghost use Rattle.shade_first.specs.FirstForm.{Spells, StandsFor, Refuses};

mod laws;
mod lex;
mod lower;
mod number;
mod parse;
mod phrase;
mod reserved;
mod step;
mod token;
mod tree;

use crate::lex::{Lexed, lex};
use crate::lower::lower;
use crate::parse::shader;
use crate::phrase::SyntaxFault;
use crate::token::Token;
use crate::tree::FirstShader;
pub use laws::{beginnings_are_texts, few_statements, never_both, one_module, one_place};
use shade_core::CoreModule;
use std::alloc::Global;

const MOST_BYTES: usize = 4096;

/// Why a text was not read: it is not of the first form, and leaves it at this offset; or memory ran out.
#[derive(Clone, Copy, Debug, PartialEq, Eq)]
pub enum FirstFault {
    NotYet(u32),
    NoMemory,
}

/// Reads a text of the first form, and gives the core module that it stands for. NotYet comes exactly where a text is not of
/// the form. Takes memory for its tokens, its tree and the module.
pub fn first_form(alloc: Global, text: &[u8]) -> Result<CoreModule, FirstFault>
    ensures { MatchResult result (λ m. StandsFor text.now m) (λ f. Refuses text.now f) }
{
    let shader = first_tree(alloc, text)?;
    match lower(alloc, shader) {
        Ok(module) => Ok(module),
        Err(_) => Err(FirstFault::NoMemory),
    }
}

// Reads the tree of a text of the first form.
fn first_tree(alloc: Global, text: &[u8]) -> Result<FirstShader, FirstFault>
    ensures { MatchResult result (λ s. Spells text.now s) (λ f. Refuses text.now f) }
{
    if text.len() > MOST_BYTES {
        return Err(FirstFault::NotYet(4096));
    }
    let Ok(Lexed { tokens, stop }) = lex(alloc, text) else {
        return Err(FirstFault::NoMemory);
    };
    match shader(alloc, tokens.as_slice(), 0) {
        Ok((tree, end)) => {
            if end < tokens.len() {
                return Err(FirstFault::NotYet(offset_at(tokens.as_slice(), end, stop)));
            }
            if (stop as usize) < text.len() {
                return Err(FirstFault::NotYet(stop));
            }
            Ok(tree)
        }
        Err(SyntaxFault::Unexpected(at)) => {
            Err(FirstFault::NotYet(offset_at(tokens.as_slice(), at, stop)))
        }
        Err(SyntaxFault::NoMemory) => Err(FirstFault::NoMemory),
    }
}

// Where the token at a place begins, or where the tokens stop.
fn offset_at(tokens: &[Token], at: usize, stop: u32) -> u32
    ensures { MatchOption (slice_get tokens.now at) (result ≡ stop) (λ t. result ≡ t.place.offset) }
{
    match tokens.get(at) {
        Some(token) => token.place.offset,
        None => stop,
    }
}
