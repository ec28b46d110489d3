//! Why a text is refused, and the lines that say so.

ghost use Rattle.std.specs.Prelude.{◌≡◌, IfOk, string_bytes};
ghost use Rattle.shade_report.specs.Refusals.{job_refusal_line, line_at, problem_name, refusal_line};

use shade_base::Place;
use shade_lex::Problem;
use std::alloc::{AllocError, Global};

/// Why a text is refused: the first layer that it does not pass, and where.
#[derive(Clone, Copy, Debug, PartialEq, Eq)]
pub enum Refusal {
    /// It has more than 1,048,576 bytes.
    TooLong,
    /// Its longest beginning that is UTF-8 has so many bytes.
    Utf8(usize),
    /// Neither a blank nor a token begins at the place.
    Lex(Problem, Place),
    /// No syntax tree goes on with the token at the place.
    Unexpected(Place),
    /// The token at the place stands too deep.
    TooDeep(Place),
    /// It leaves the first form at this offset.
    NotYet(u32),
}

/// Makes the line that a refused text prints. Refused only for want of memory.
pub fn refusal_text(alloc: Global, refusal: Refusal) -> Result<String, AllocError>
    ensures { IfOk result (λ text. string_bytes text ≡ refusal_line refusal) }
{
    match refusal {
        Refusal::TooLong => String::from_str(alloc, "refused length\n"),
        Refusal::Utf8(offset) => format!(in alloc; "refused utf8 {offset}\n"),
        Refusal::Lex(problem, place) => text_at(alloc, "lex", place, problem_text(problem)),
        Refusal::Unexpected(place) => text_at(alloc, "syntax", place, "Unexpected"),
        Refusal::TooDeep(place) => text_at(alloc, "syntax", place, "TooDeep"),
        Refusal::NotYet(offset) => format!(in alloc; "refused notyet {offset}\n"),
    }
}

/// Makes the line that a refused job prints. Refused only for want of memory.
pub fn job_refusal_text(alloc: Global) -> Result<String, AllocError>
    ensures { IfOk result (λ text. string_bytes text ≡ job_refusal_line) }
{
    String::from_str(alloc, "refused job / J1\n")
}

/// The line of a layer that names what is wrong at a place.
fn text_at(alloc: Global, layer: &str, place: Place, name: &str) -> Result<String, AllocError>
    ensures { IfOk result (λ text. string_bytes text ≡ line_at layer.now place name.now) }
{
    let Place { line, column, .. } = place;
    format!(in alloc; "refused {layer} {line}:{column} {name}\n")
}

fn problem_text(problem: Problem) -> &'static str
    ensures { result.now ≡ problem_name problem }
{
    match problem {
        Problem::BadCharacter => "BadCharacter",
        Problem::OpenComment => "OpenComment",
        Problem::BadNumber => "BadNumber",
        Problem::NumberTooLarge => "NumberTooLarge",
        Problem::FloatLiteral => "FloatLiteral",
    }
}
