//! What tokens are for template lists.

ghost use Rattle.std.specs.Prelude.{◌≡◌, ℕ, ◌+◌, IfOk, None, slice_index};
ghost use Rattle.shade_lex.specs.Templates.{single_role, mark_role, is_directly_after, role_of, roles_from};

use crate::token::{Token, TokenKind};
use std::alloc::{AllocError, Global};

/// What a token is for template lists.
#[derive(Clone, Copy, Debug, PartialEq, Eq)]
pub enum Role {
    Word,
    /// A `<`, which opens a list where it stands after a word.
    Less,
    Greater,
    /// `(` or `[`.
    Raise,
    /// `)` or `]`.
    Lower,
    /// `&&` or `||`.
    Cut,
    /// A token that ends all lists.
    Reset,
    /// An `=` directly after a `>`.
    Joined,
    Other,
}

/// What each token of a text is.
pub fn roles_of(alloc: Global, text: &[u8], tokens: &[Token]) -> Result<Vec<Role>, AllocError>
    ensures { IfOk result (λ roles. roles.items ≡ roles_from text.now None tokens.now) }
{
    let mut roles = Vec::new(alloc);
    let mut previous = None;
    for token in tokens {
        roles.push(role_of(text, previous, *token))?;
        previous = Some(*token);
    }
    Ok(roles)
}

fn role_of(text: &[u8], previous: Option<Token>, token: Token) -> Role
    ensures { result ≡ role_of text.now previous token }
{
    match token.kind {
        TokenKind::Word => Role::Word,
        TokenKind::Number { .. } => Role::Other,
        TokenKind::Mark => {
            let offset = token.place.offset as usize;
            let last = byte_at(text, (offset + token.length as usize).saturating_sub(1));
            let joined = is_directly_after(text, previous, token);
            mark_role(byte_at(text, offset), last, token.length, joined)
        }
    }
}

fn byte_at(text: &[u8], at: usize) -> u8
    ensures { result ≡ slice_index text.now at }
{
    match text.get(at) {
        Some(byte) => *byte,
        None => 0,
    }
}

/// Whether a token stands directly after a `>`.
fn is_directly_after(text: &[u8], previous: Option<Token>, token: Token) -> bool
    ensures { result ≡ is_directly_after text.now previous token }
{
    match previous {
        Some(previous) => {
            let offset = previous.place.offset as usize;
            byte_at(text, offset) == b'>' && offset + 1 == token.place.offset as usize
        }
        None => false,
    }
}

fn mark_role(first: u8, last: u8, length: u32, joined: bool) -> Role
    ensures { result ≡ mark_role first last length joined }
{
    if last == b'=' {
        equals_role(first, length, joined)
    } else if length == 1 {
        single_role(first)
    } else if first == last && (first == b'&' || first == b'|') {
        Role::Cut
    } else {
        Role::Other
    }
}

/// What a mark is that ends in `=`.
fn equals_role(first: u8, length: u32, joined: bool) -> Role
    ensures { result ≡ mark_role first 61 length joined }
{
    if length == 1 {
        if joined { Role::Joined } else { Role::Reset }
    } else if length == 2 && (first == b'=' || first == b'!' || first == b'<') {
        Role::Other
    } else {
        Role::Reset
    }
}

fn single_role(c: u8) -> Role
    ensures { result ≡ single_role c }
{
    match c {
        b'<' => Role::Less,
        b'>' => Role::Greater,
        b'(' | b'[' => Role::Raise,
        b')' | b']' => Role::Lower,
        b';' | b'{' | b':' => Role::Reset,
        _ => Role::Other,
    }
}
