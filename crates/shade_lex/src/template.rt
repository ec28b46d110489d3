//! Template lists.

ghost use Rattle.std.specs.Prelude.{◌≡◌, ◌++◌, IfOk, OnOk};
ghost use Rattle.shade_lex.specs.Templates.{offset_at, pair_of, pairs_from, AreTemplates};

use crate::lexer::Tokens;
use crate::role::roles_of;
use crate::scan::closers_of;
use crate::token::Token;
use std::alloc::{AllocError, Global};
use std::marker::Model;

/// Template lists, each by the byte offsets of its `<` and its `>`, in the order in which they begin.
#[derive(Debug, Drop)]
pub struct TemplatePairs {
    pairs: Vec<(u32, u32)>,
}

impl Model for TemplatePairs {
    ghost use Rattle.std.specs.Prelude.{List, ℕ};

    ghost Value = { List (ℕ × ℕ) };

    ghost view = { λ p. p.pairs.items };
}

impl TemplatePairs {
    /// The pairs of these offsets. Takes no memory.
    pub fn from_vec(pairs: Vec<(u32, u32)>) -> TemplatePairs
        ensures { result ≡ pairs.items }
    {
        TemplatePairs { pairs }
    }

    /// Gives the vector back. Takes no memory.
    pub fn into_vec(self) -> Vec<(u32, u32)>
        ensures { result.items ≡ self }
    {
        let TemplatePairs { pairs } = self;
        pairs
    }

    /// The pairs in order. Takes no memory.
    pub fn as_slice(&self) -> &[(u32, u32)]
        ensures { result.now ≡ self.now }
    {
        self.pairs.as_slice()
    }
}

/// The template lists of a text.
///
/// Takes time and memory in the order of the tokens.
pub fn templates(alloc: Global, tokens: &Tokens) -> Result<TemplatePairs, AllocError>
    ensures { IfOk result (AreTemplates tokens.now.text tokens.now.tokens) }
{
    let roles = roles_of(alloc, tokens.text().as_bytes(), tokens.as_slice())?;
    let closers = closers_of(alloc, &roles)?;
    let pairs = pairs_of(alloc, tokens.as_slice(), &closers)?;
    Ok(TemplatePairs { pairs })
}

/// The offsets of the pairs, in the order in which they begin.
fn pairs_of(
    alloc: Global,
    tokens: &[Token],
    closers: &[Option<usize>],
) -> Result<Vec<(u32, u32)>, AllocError>
    ensures { IfOk result (λ pairs. pairs.items ≡ pairs_from tokens.now 0 closers.now) }
{
    let mut pairs = Vec::new(alloc);
    for at in 0..closers.len() {
        add_pair(&mut pairs, tokens, at, closers[at])?;
    }
    Ok(pairs)
}

fn add_pair(
    pairs: &mut Vec<(u32, u32)>,
    tokens: &[Token],
    at: usize,
    closer: Option<usize>,
) -> Result<(), AllocError>
    ensures { OnOk result (pairs.new.items ≡ pairs.old.items ++ pair_of tokens.now at closer) }
{
    if let Some(end) = closer {
        pairs.push((offset_at(tokens, at), offset_at(tokens, end)))?;
    }
    Ok(())
}

fn offset_at(tokens: &[Token], at: usize) -> u32
    ensures { result ≡ offset_at tokens.now at }
{
    match tokens.get(at) {
        Some(token) => token.place.offset,
        None => 0,
    }
}
