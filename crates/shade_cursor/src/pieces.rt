//! The pieces that the tokens of a text are.

ghost use Rattle.std.specs.Prelude.{◌≡◌, ◌≤◌, length, ◌==◌, ℕ, List, IfOk, OnOk, ◌++◌, ◌∷◌, [], All};
ghost use Rattle.std.specs.List.{list_any};
ghost use Rattle.std.specs.Ordering.{nat_cmp};
ghost use Rattle.std.specs.BTreeSet.{contains};
ghost use Rattle.shade_lex.specs.Tokens.{IsWithin};
ghost use Rattle.shade_ast.specs.Lexemes.{in_template, keywords, lexeme_of, lexemes as lexemes_of, named_in, signs};
ghost use Rattle.shade_cursor.specs.Shown.{AreEnds, entries, lexeme, lexemes};

use crate::piece::Piece;
use shade_ast::{Keyword, Sign};
use shade_lex::{TemplatePairs, Token, TokenKind, Tokens};
use std::alloc::{AllocError, Global};
use std::collections::BTreeSet;

/// The keywords, each with its text.
const KEYWORDS: [(&str, Keyword); 26] = [
    ("alias", Keyword::Alias),
    ("break", Keyword::Break),
    ("case", Keyword::Case),
    ("const", Keyword::Const),
    ("const_assert", Keyword::ConstAssert),
    ("continue", Keyword::Continue),
    ("continuing", Keyword::Continuing),
    ("default", Keyword::Default),
    ("diagnostic", Keyword::Diagnostic),
    ("discard", Keyword::Discard),
    ("else", Keyword::Else),
    ("enable", Keyword::Enable),
    ("false", Keyword::False),
    ("fn", Keyword::Fn),
    ("for", Keyword::For),
    ("if", Keyword::If),
    ("let", Keyword::Let),
    ("loop", Keyword::Loop),
    ("override", Keyword::Override),
    ("requires", Keyword::Requires),
    ("return", Keyword::Return),
    ("struct", Keyword::Struct),
    ("switch", Keyword::Switch),
    ("true", Keyword::True),
    ("var", Keyword::Var),
    ("while", Keyword::While),
];

/// The marks outside template lists, each with its text.
const SIGNS: [(&str, Sign); 43] = [
    ("(", Sign::Open),
    (")", Sign::Close),
    ("[", Sign::OpenBracket),
    ("]", Sign::CloseBracket),
    ("{", Sign::OpenBrace),
    ("}", Sign::CloseBrace),
    ("<", Sign::Less),
    (">", Sign::Greater),
    ("<=", Sign::LessEqual),
    ("==", Sign::EqualEqual),
    ("!=", Sign::NotEqual),
    ("<<", Sign::ShiftLeft),
    ("+", Sign::Plus),
    ("-", Sign::Minus),
    ("*", Sign::Star),
    ("/", Sign::Slash),
    ("%", Sign::Percent),
    ("&", Sign::Ampersand),
    ("|", Sign::Bar),
    ("^", Sign::Caret),
    ("&&", Sign::AndAnd),
    ("||", Sign::OrOr),
    ("!", Sign::Bang),
    ("~", Sign::Tilde),
    ("++", Sign::PlusPlus),
    ("--", Sign::MinusMinus),
    ("=", Sign::Equal),
    ("+=", Sign::PlusEqual),
    ("-=", Sign::MinusEqual),
    ("*=", Sign::StarEqual),
    ("/=", Sign::SlashEqual),
    ("%=", Sign::PercentEqual),
    ("&=", Sign::AmpersandEqual),
    ("|=", Sign::BarEqual),
    ("^=", Sign::CaretEqual),
    ("<<=", Sign::ShiftLeftEqual),
    ("->", Sign::Arrow),
    (".", Sign::Dot),
    (",", Sign::Comma),
    (";", Sign::Semicolon),
    (":", Sign::Colon),
    ("@", Sign::At),
    ("_", Sign::Underscore),
];

/// The offsets at which template lists begin and end.
#[derive(Drop)]
struct Ends {
    opens: BTreeSet<u32>,
    closes: BTreeSet<u32>,
}

/// The pieces that the tokens of a text are, in order.
///
/// Takes memory in the order of the tokens, and time in that order but for the look-ups among the template lists.
pub fn pieces_of<'a>(
    alloc: Global,
    tokens: &'a Tokens,
    pairs: &TemplatePairs,
) -> Result<Vec<Piece<'a>>, AllocError>
    ensures are { IfOk result (λ v. lexemes v.items ≡ lexemes_of tokens.now.text pairs.now tokens.now.tokens) }
    ensures few { IfOk result (λ v. length v.items ≤ 1048576) }
{
    let ends = ends_of(alloc, pairs.as_slice())?;
    pieces_in(alloc, tokens.text(), &ends, tokens.as_slice())
}

fn ends_of(alloc: Global, pairs: &[(u32, u32)]) -> Result<Ends, AllocError>
    ensures { IfOk result (λ ends. AreEnds ends.opens ends.closes pairs.now) }
{
    let mut opens = BTreeSet::new(alloc);
    let mut closes = BTreeSet::new(alloc);
    for pair in pairs {
        opens.insert(pair.0)?;
        closes.insert(pair.1)?;
    }
    Ok(Ends { opens, closes })
}

fn pieces_in<'a>(
    alloc: Global,
    text: &'a str,
    ends: &Ends,
    tokens: &[Token],
) -> Result<Vec<Piece<'a>>, AllocError>
    requires { All (IsWithin text.now) tokens.now }
    ensures { IfOk result
        (λ v. (pairs : List (ℕ × ℕ)) → AreEnds ends.now.opens ends.now.closes pairs → lexemes v.items ≡ lexemes_of text.now pairs tokens.now) }
{
    let mut pieces = Vec::with_capacity(alloc, tokens.len())?;
    for token in tokens {
        pieces.push(piece_of(text, ends, *token))?;
    }
    Ok(pieces)
}

fn piece_of<'a>(text: &'a str, ends: &Ends, token: Token) -> Piece<'a>
    requires { IsWithin text.now token }
    ensures { (pairs : List (ℕ × ℕ)) → AreEnds ends.now.opens ends.now.closes pairs → lexeme result ≡ lexeme_of text.now pairs token }
{
    let place = token.place;
    let begin = place.offset as usize;
    let word = &text[begin..begin + token.length as usize];
    match token.kind {
        TokenKind::Number { value, suffix } => Piece::Number(value, suffix, place),
        TokenKind::Word => match keyword_of(word) {
            Some(keyword) => Piece::Key(keyword, place),
            None => Piece::Word(word, place),
        },
        TokenKind::Mark => match sign_of(word) {
            Some(sign) => Piece::Mark(sign_at(ends, sign, place.offset), place),
            None => Piece::Stray(place),
        },
    }
}

/// The mark that a mark of the text is: a `<` or a `>` of a template list is one of its own.
fn sign_at(ends: &Ends, sign: Sign, offset: u32) -> Sign
    ensures { (pairs : List (ℕ × ℕ)) → AreEnds ends.now.opens ends.now.closes pairs → result ≡ in_template sign pairs offset }
{
    match sign {
        Sign::Less => {
            if ends.opens.contains(&offset) {
                Sign::OpenTemplate
            } else {
                Sign::Less
            }
        }
        Sign::Greater => {
            if ends.closes.contains(&offset) {
                Sign::CloseTemplate
            } else {
                Sign::Greater
            }
        }
        _ => sign,
    }
}

/// The keyword that a word is, if it is one.
fn keyword_of(word: &str) -> Option<Keyword>
    ensures { result ≡ named_in keywords word.now }
{
    named_in(&KEYWORDS, word)
}

/// The mark that a text is outside template lists, if it is one.
fn sign_of(text: &str) -> Option<Sign>
    ensures { result ≡ named_in signs text.now }
{
    named_in(&SIGNS, text)
}

/// What stands beside a text in a table.
fn named_in<T: Copy>(table: &[(&str, T)], text: &str) -> Option<T>
    ensures { result ≡ named_in (entries table.now) text.now }
{
    'entries: for (name, named) in table {
        if text == *name {
            return Some(*named);
        }
    }
    None
}
