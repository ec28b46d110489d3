//! How deep tokens stand in expressions.

ghost use Rattle.std.specs.Prelude.{◌≡◌, ℕ, ◌+◌, ◌<◌, ◌≤◌, [], length, IfOk, IfSome, MatchOption, OnOk};
ghost use Rattle.shade_ast.specs.declared.lexeme.Keyword.{Keyword as KeywordOf};
ghost use Rattle.shade_cursor.specs.Depths.{after, accessed, anew, before, behind, closed_to, either_after, equal_after, follows, goes_on};
ghost use Rattle.shade_cursor.specs.Depths.{greater_after, is_half, joined, keyword_role, named_after, opened, opened_after, outermost, prefixed};
ghost use Rattle.shade_cursor.specs.Depths.{resumed, role_of as role_of_lexeme, sign_role, start, IsDeep};
ghost use Rattle.shade_cursor.specs.Passes.{IsFirst};
ghost use Rattle.shade_cursor.specs.Walks.{Small};
ghost use Rattle.shade_cursor.specs.Shown.{lexeme, lexemes};

use crate::piece::Piece;
use shade_ast::{Keyword, Sign};
use shade_base::Place;
use std::alloc::{AllocError, Global};
use std::marker::Model;

/// The greatest number of brackets and prefix operators around a token.
const DEPTH: usize = 127;

/// The greatest number of operators and accesses before a token.
const CHAIN: usize = 1023;

/// A bracket that is open, or the outermost expression.
#[derive(Clone, Copy)]
pub struct Inside {
    /// How deep its parts stand.
    pub floor: usize,
    /// How deep the next token stands, with the prefix operators around it.
    pub depth: usize,
    /// How many operators and accesses stand before the bracket.
    pub start: usize,
    /// How many stand before the next token.
    pub chain: usize,
}

/// What the last token says of the next one.
#[derive(Clone, Copy)]
pub enum Last {
    /// An operand may begin.
    Fresh,
    /// An operand has ended.
    Ended,
    /// A name is declared here, or is that of an attribute.
    Naming,
    /// An opening token is none of an expression's.
    Apart,
    /// A `>` stands here, which may go on.
    Greater(Place),
    /// Two.
    Greaters(Place),
}

/// What a token is in an expression, as far as depth goes.
#[derive(Clone, Copy)]
pub enum Role {
    Name,
    Operand,
    /// A name follows that is no operand.
    Names,
    /// A bracket or a name follows that is none of an expression's.
    Parts,
    Opens,
    Indexes,
    Closes,
    Comma,
    Accesses,
    Prefix,
    Infix,
    /// A prefix or an infix operator.
    Either,
    Greater(Place),
    Equal(Place),
    /// None of an expression's.
    Ends,
}

fn keyword_role(keyword: Keyword) -> Role
    ensures { result ≡ keyword_role keyword }
{
    match keyword {
        Keyword::True | Keyword::False => Role::Operand,
        Keyword::Fn => Role::Names,
        Keyword::Const | Keyword::Diagnostic | Keyword::For | Keyword::Var => Role::Parts,
        _ => Role::Ends,
    }
}

fn sign_role(sign: Sign, place: Place) -> Role
    ensures { result ≡ sign_role sign place }
{
    match sign {
        Sign::Open | Sign::OpenTemplate => Role::Opens,
        Sign::OpenBracket => Role::Indexes,
        Sign::Close | Sign::CloseTemplate | Sign::CloseBracket => Role::Closes,
        Sign::Comma => Role::Comma,
        Sign::Dot => Role::Accesses,
        Sign::Bang | Sign::Tilde => Role::Prefix,
        Sign::Minus | Sign::Star | Sign::Ampersand => Role::Either,
        Sign::Plus | Sign::Slash | Sign::Percent | Sign::Bar | Sign::Caret => Role::Infix,
        Sign::AndAnd | Sign::OrOr | Sign::ShiftLeft => Role::Infix,
        Sign::Less | Sign::LessEqual | Sign::EqualEqual | Sign::NotEqual => Role::Infix,
        Sign::Greater => Role::Greater(place),
        Sign::Equal => Role::Equal(place),
        Sign::At => Role::Names,
        _ => Role::Ends,
    }
}

fn role_of(piece: &Piece) -> Role
    ensures { result ≡ role_of_lexeme (lexeme piece.now) }
{
    match piece {
        Piece::Word(_, _) => Role::Name,
        Piece::Number(_, _, _) => Role::Operand,
        Piece::Key(keyword, _) => keyword_role(*keyword),
        Piece::Mark(sign, place) => sign_role(*sign, *place),
        Piece::Stray(_) => Role::Ends,
    }
}

fn follows(first: Place, second: Place) -> bool
    ensures { result ≡ follows first second }
{
    second.offset as u64 == first.offset as u64 + 1
}

fn is_half(last: Last) -> bool
    ensures { result ≡ is_half last }
{
    matches!(last, Last::Greater(_) | Last::Greaters(_))
}

/// Whether a token goes on with the operator that began with a `>`.
fn goes_on(last: Last, next: Role) -> bool
    ensures { result ≡ goes_on last next }
{
    match (last, next) {
        (Last::Greater(first), Role::Greater(second)) => follows(first, second),
        (Last::Greater(first), Role::Equal(second)) => follows(first, second),
        (Last::Greaters(first), Role::Equal(second)) => follows(first, second),
        _ => false,
    }
}

/// What stands open before a token.
#[derive(Drop)]
struct Walk {
    inner: Inside,
    /// Innermost last.
    outer: Vec<Inside>,
    last: Last,
}

impl Model for Walk {
    ghost use Rattle.std.specs.Prelude.{reverse};
    ghost use Rattle.shade_cursor.specs.Depths.{Opened};

    ghost Value = { Opened };

    ghost view = { λ w. record { inner = w.inner; outer = reverse w.outer.items; last = w.last } };
}

const OUTERMOST: Inside = Inside {
    floor: 0,
    depth: 0,
    start: 0,
    chain: 0,
};

impl Walk {
    fn new(alloc: Global) -> Walk
        ensures { result ≡ start }
    {
        Walk {
            inner: OUTERMOST,
            outer: Vec::new(alloc),
            last: Last::Fresh,
        }
    }

    fn begin(&mut self, last: Last)
        ensures { self.new ≡ anew last }
    {
        self.inner = OUTERMOST;
        self.outer.clear();
        self.last = last;
    }

    fn join(&mut self)
        requires { Small self.old }
        ensures { self.new ≡ joined self.old }
    {
        self.inner.depth = self.inner.floor;
        self.inner.chain += 1;
        self.last = Last::Fresh;
    }

    fn prefix(&mut self)
        requires { Small self.old }
        ensures { self.new ≡ prefixed self.old }
    {
        self.inner.depth += 1;
        self.last = Last::Fresh;
    }

    fn access(&mut self)
        requires { Small self.old }
        ensures { self.new ≡ accessed self.old }
    {
        self.inner.chain += 1;
        self.last = Last::Fresh;
    }

    fn resume(&mut self)
        ensures { self.new ≡ resumed self.old }
    {
        self.inner.depth = self.inner.floor;
        self.inner.chain = self.inner.start;
        self.last = Last::Fresh;
    }

    fn open(&mut self) -> Result<(), AllocError>
        requires { self.old.inner.depth < 128 }
        ensures { OnOk result (self.new ≡ opened self.old) }
    {
        let around = self.inner;
        self.outer.push(around)?;
        let depth = around.depth + 1;
        let chain = around.chain;
        self.inner = Inside {
            floor: depth,
            depth,
            start: chain,
            chain,
        };
        self.last = Last::Fresh;
        Ok(())
    }

    fn close(&mut self)
        ensures { self.new ≡ closed_to self.old.outer }
    {
        match self.outer.pop() {
            Some(around) => {
                self.inner = around;
                self.last = Last::Ended;
            }
            None => self.begin(Last::Fresh),
        }
    }

    fn open_after(&mut self) -> Result<(), AllocError>
        requires { Small self.old }
        ensures { OnOk result (self.new ≡ opened_after self.old.last self.old) }
    {
        match self.last {
            Last::Apart => {
                self.last = Last::Fresh;
                Ok(())
            }
            _ => self.open(),
        }
    }

    fn name(&mut self)
        ensures { self.new ≡ named_after self.old.last self.old }
    {
        self.last = match self.last {
            Last::Naming => Last::Apart,
            _ => Last::Ended,
        };
    }

    fn either(&mut self)
        requires { Small self.old }
        ensures { self.new ≡ either_after self.old.last self.old }
    {
        match self.last {
            Last::Ended => self.join(),
            _ => self.prefix(),
        }
    }

    fn greater(&mut self, place: Place)
        ensures { self.new ≡ greater_after self.old.last place self.old }
    {
        self.last = match self.last {
            Last::Greater(_) => Last::Greaters(place),
            _ => Last::Greater(place),
        };
    }

    fn equal(&mut self)
        requires { Small self.old }
        ensures { self.new ≡ equal_after self.old.last self.old }
    {
        match self.last {
            Last::Greater(_) => self.join(),
            _ => self.begin(Last::Fresh),
        }
    }

    /// Before a token: an operator that it does not go on with has ended.
    fn settle(&mut self, next: Role)
        requires { Small self.old }
        ensures { self.new ≡ before next self.old }
    {
        if is_half(self.last) && !goes_on(self.last, next) {
            self.join();
        }
    }

    /// Goes on over one token.
    fn step(&mut self, next: Role) -> Result<(), AllocError>
        requires { Small self.old }
        ensures { OnOk result (self.new ≡ behind next self.old) }
    {
        match next {
            Role::Name => self.name(),
            Role::Operand => self.last = Last::Ended,
            Role::Names => self.begin(Last::Naming),
            Role::Parts => self.begin(Last::Apart),
            Role::Opens => return self.open_after(),
            Role::Indexes => {
                self.access();
                return self.open();
            }
            Role::Closes => self.close(),
            Role::Comma => self.resume(),
            Role::Accesses => self.access(),
            Role::Prefix => self.prefix(),
            Role::Infix => self.join(),
            Role::Either => self.either(),
            Role::Greater(place) => self.greater(place),
            Role::Equal(_) => self.equal(),
            Role::Ends => self.begin(Last::Fresh),
        }
        Ok(())
    }
}

/// The first token from a place on that passes a limit of expressions, if one does.
///
/// Takes time in the order of the tokens, and memory for the brackets that are open.
pub fn first_deep(alloc: Global, pieces: &[Piece], from: usize) -> Result<Option<usize>, AllocError>
    requires { from ≤ length pieces.now }
    ensures deep { IfOk result (λ r. MatchOption r ((k : ℕ) → IsDeep (lexemes pieces.now) from k → ⊥)
        (λ k. IsFirst (IsDeep (lexemes pieces.now) from) k)) }
    ensures within { IfOk result (λ r. IfSome r (λ k. k < length pieces.now)) }
{
    let mut walk = Walk::new(alloc);
    'tokens: for at in from..pieces.len() {
        let next = role_of(&pieces[at]);
        walk.settle(next);
        if walk.inner.chain > CHAIN {
            return Ok(Some(at));
        }
        walk.step(next)?;
        if walk.inner.depth > DEPTH {
            return Ok(Some(at));
        }
    }
    Ok(None)
}
