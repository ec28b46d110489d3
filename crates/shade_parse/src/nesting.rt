//! How many braces are open around tokens, and how many `else if` stand before them.

ghost use Rattle.std.specs.Prelude.{◌≡◌, ℕ, ◌<◌, IfOk, IfSome, MatchOption, OnOk, length};
ghost use Rattle.shade_parse.specs.Nesting.{after, armed, before, before_other, behind, closed_to, ended, if_after, opened, start, turn_of as turn_of_lexeme, IsNested, Small};
ghost use Rattle.shade_cursor.specs.Passes.{IsFirst};
ghost use Rattle.shade_cursor.specs.Shown.{lexeme, lexemes};

use shade_ast::{Keyword, Sign};
use shade_cursor::piece::Piece;
use std::alloc::{AllocError, Global};
use std::marker::Model;

/// The greatest number of braces around a token.
const DEPTH: usize = 127;

/// The greatest number of `else if` before a token in the statements that hold it.
const ARMS: usize = 1023;

/// What stands between two braces, or outside of all.
#[derive(Clone, Copy)]
pub struct Inner {
    /// How many braces are open around it.
    pub depth: usize,
    /// How many `else if` stand before its `{`.
    pub start: usize,
    /// How many stand before the next token.
    pub arms: usize,
}

/// What the last token was.
#[derive(Clone, Copy)]
pub enum Past {
    Closed,
    Else,
    Token,
}

/// What a token is to braces and arms.
#[derive(Clone, Copy)]
pub enum Turn {
    Opens,
    Closes,
    Else,
    If,
    Other,
}

fn turn_of(piece: &Piece) -> Turn
    ensures { result ≡ turn_of_lexeme (lexeme piece.now) }
{
    match piece {
        Piece::Mark(Sign::OpenBrace, _) => Turn::Opens,
        Piece::Mark(Sign::CloseBrace, _) => Turn::Closes,
        Piece::Key(Keyword::Else, _) => Turn::Else,
        Piece::Key(Keyword::If, _) => Turn::If,
        _ => Turn::Other,
    }
}

/// What stands open before a token.
#[derive(Drop)]
struct Walk {
    inner: Inner,
    /// Innermost last.
    outer: Vec<Inner>,
    past: Past,
}

impl Model for Walk {
    ghost use Rattle.std.specs.Prelude.{reverse};
    ghost use Rattle.shade_parse.specs.Nesting.{Nested};

    ghost Value = { Nested };

    ghost view = { λ w. record { inner = w.inner; outer = reverse w.outer.items; past = w.past } };
}

const OUTSIDE: Inner = Inner {
    depth: 0,
    start: 0,
    arms: 0,
};

impl Walk {
    fn new(alloc: Global) -> Walk
        ensures { result ≡ start }
    {
        Walk {
            inner: OUTSIDE,
            outer: Vec::new(alloc),
            past: Past::Token,
        }
    }

    fn open(&mut self) -> Result<(), AllocError>
        requires { Small self.old }
        ensures { OnOk result (self.new ≡ opened self.old) }
    {
        let around = self.inner;
        self.outer.push(around)?;
        let arms = around.arms;
        self.inner = Inner {
            depth: around.depth + 1,
            start: arms,
            arms,
        };
        self.past = Past::Token;
        Ok(())
    }

    fn close(&mut self)
        ensures { self.new ≡ closed_to self.old.outer }
    {
        self.inner = self.outer.pop().unwrap_or(OUTSIDE);
        self.past = Past::Closed;
    }

    fn arm(&mut self)
        requires { Small self.old }
        ensures { self.new ≡ armed self.old }
    {
        self.inner.arms += 1;
        self.past = Past::Token;
    }

    fn end(&mut self)
        ensures { self.new ≡ ended self.old }
    {
        self.inner.arms = self.inner.start;
    }

    fn branch(&mut self)
        requires { Small self.old }
        ensures { self.new ≡ if_after self.old.past self.old }
    {
        match self.past {
            Past::Else => self.arm(),
            _ => self.past = Past::Token,
        }
    }

    /// Before a token: an `if` statement goes on behind a `}` with an `else` alone.
    fn settle(&mut self, next: Turn)
        ensures { self.new ≡ before next self.old }
    {
        match (next, self.past) {
            (Turn::Else, _) => {}
            (_, Past::Closed) => self.end(),
            _ => {}
        }
    }

    /// Goes on over one token.
    fn step(&mut self, next: Turn) -> Result<(), AllocError>
        requires { Small self.old }
        ensures { OnOk result (self.new ≡ behind next self.old) }
    {
        match next {
            Turn::Opens => return self.open(),
            Turn::Closes => self.close(),
            Turn::Else => self.past = Past::Else,
            Turn::If => self.branch(),
            Turn::Other => self.past = Past::Token,
        }
        Ok(())
    }
}

/// The first token that passes a limit of braces or arms, if one does.
///
/// Takes time in the order of the tokens, and memory for the braces that are open.
pub fn first_nested(alloc: Global, pieces: &[Piece]) -> Result<Option<usize>, AllocError>
    ensures nested { IfOk result (λ r. MatchOption r ((k : ℕ) → IsNested (lexemes pieces.now) k → ⊥) (λ k. IsFirst (IsNested (lexemes pieces.now)) k)) }
    ensures within { IfOk result (λ r. IfSome r (λ k. k < length pieces.now)) }
{
    let mut walk = Walk::new(alloc);
    'tokens: for at in 0..pieces.len() {
        let next = turn_of(&pieces[at]);
        walk.settle(next);
        if walk.inner.arms > ARMS {
            return Ok(Some(at));
        }
        walk.step(next)?;
        if walk.inner.depth > DEPTH {
            return Ok(Some(at));
        }
    }
    Ok(None)
}
