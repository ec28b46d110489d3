//! The text of a shader, layer by layer: its length, UTF-8, its tokens, its syntax and its form.

ghost use Rattle.std.specs.Prelude.{◌≡◌, Ok, IfOk, IsErr, MatchOption};
ghost use Rattle.shade_top.specs.Report.{lex_refusal, syntax_refusal, IsReadingOf};
ghost use Rattle.shade_top.specs.Text.{IsText, Parses};

use shade_core::CoreModule;
use shade_first::{FirstFault, first_form};
use shade_lex::{LexFault, Problem, Tokens, lex, templates};
use shade_parse::parse;
use shade_parse_expr::SyntaxFault;
use shade_report::Refusal;
use std::alloc::{AllocError, Global};

/// The greatest number of bytes of a text.
pub const TEXT_LIMIT: usize = 1_048_576;

/// What is made of a text: the module that it stands for, or why it is refused.
#[derive(Drop)]
pub enum Reading {
    Shader(CoreModule),
    Refused(Refusal),
}

/// Reads a text up to its form; the first layer that it does not pass refuses it. The tokens hold a copy of the text, which goes
/// with them.
pub fn read_shader(alloc: Global, bytes: &[u8]) -> Result<Reading, AllocError>
    ensures { IfOk result (IsReadingOf bytes.now) }
{
    if bytes.len() > TEXT_LIMIT {
        return Ok(Reading::Refused(Refusal::TooLong));
    }
    match str::from_utf8(bytes) {
        Ok(text) => read_text(alloc, text),
        Err(error) => Ok(Reading::Refused(Refusal::Utf8(error.valid_up_to()))),
    }
}

/// Reads a text that is UTF-8.
fn read_text(alloc: Global, text: &str) -> Result<Reading, AllocError>
    requires { IsText text.now }
    ensures { IfOk result (IsReadingOf text.now) }
{
    match lex(alloc, text) {
        Ok(tokens) => read_tokens(alloc, &tokens),
        Err(fault) => refused(lex_refusal(fault)),
    }
}

/// Reads what the tokens of a text spell.
fn read_tokens(alloc: Global, tokens: &Tokens) -> Result<Reading, AllocError>
    requires { IsText tokens.now.text }
    ensures { IfOk result (IsReadingOf tokens.now.text) }
{
    let text = tokens.text();
    let pairs = templates(alloc, tokens)?;
    match parse(alloc, tokens, &pairs) {
        Ok(_) => read_form(alloc, text.as_bytes()),
        Err(fault) => refused(syntax_refusal(fault)),
    }
}

/// Reads the form of a text whose tokens spell a tree.
fn read_form(alloc: Global, text: &[u8]) -> Result<Reading, AllocError>
    requires { Parses text.now }
    ensures { IfOk result (IsReadingOf text.now) }
{
    match first_form(alloc, text) {
        Ok(shader) => Ok(Reading::Shader(shader)),
        Err(FirstFault::NotYet(offset)) => Ok(Reading::Refused(Refusal::NotYet(offset))),
        Err(FirstFault::NoMemory) => Err(AllocError),
    }
}

/// A refusal, or the want of memory that took its place.
fn refused(refusal: Option<Refusal>) -> Result<Reading, AllocError>
    ensures { MatchOption refusal (IsErr result) (λ why. result ≡ Ok (Reading.Refused why)) }
{
    match refusal {
        Some(refusal) => Ok(Reading::Refused(refusal)),
        None => Err(AllocError),
    }
}

/// Why a text without tokens is refused.
fn lex_refusal(fault: LexFault) -> Option<Refusal>
    ensures { result ≡ lex_refusal fault }
{
    match fault {
        LexFault::BadCharacter(place) => Some(Refusal::Lex(Problem::BadCharacter, place)),
        LexFault::OpenComment(place) => Some(Refusal::Lex(Problem::OpenComment, place)),
        LexFault::BadNumber(place) => Some(Refusal::Lex(Problem::BadNumber, place)),
        LexFault::NumberTooLarge(place) => Some(Refusal::Lex(Problem::NumberTooLarge, place)),
        LexFault::FloatLiteral(place) => Some(Refusal::Lex(Problem::FloatLiteral, place)),
        LexFault::NoMemory => None,
    }
}

/// Why a text is refused whose tokens spell no tree or pass a depth.
fn syntax_refusal(fault: SyntaxFault) -> Option<Refusal>
    ensures { result ≡ syntax_refusal fault }
{
    match fault {
        SyntaxFault::Unexpected(place) => Some(Refusal::Unexpected(place)),
        SyntaxFault::TooDeep(place) => Some(Refusal::TooDeep(place)),
        SyntaxFault::NoMemory => None,
    }
}
