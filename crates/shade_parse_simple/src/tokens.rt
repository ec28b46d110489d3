//! Names, and the token that closes a list.

ghost use Rattle.std.specs.Prelude.{◌≡◌, ◌<◌, ◌≤◌, [], length, IfOk, MatchResult};
ghost use Rattle.shade_ast.specs.declared.lexeme.Sign.TheVariants as sign_;
ghost use Rattle.shade_ast.specs.Names.{Grows};
ghost use Rattle.shade_ast.specs.Statements.{Name};
ghost use Rattle.shade_ast.specs.Reads.{Reads};
ghost use Rattle.shade_parse_simple.specs.Readings.{named_seen, ReadsOf};
ghost use Rattle.shade_parse_simple.specs.Rests.{Ending};
ghost use Rattle.shade_parse_expr.specs.Parts.{Faults};
ghost use Rattle.shade_cursor.specs.Shown.{lexemes};
ghost use Rattle.shade_parse_expr.specs.Reading.{CanRead, Went};

use crate::read::Read;
use shade_ast::{Named, Names, Sign};
use shade_cursor::builds::number;
use shade_cursor::part::Fault;
use shade_cursor::piece::{Piece, mark_at, word_at};

/// Reads the name that begins at a token. `Unexpected` has that token where it is no name, `NoMemory` comes where a name that
/// is new finds no memory.
pub fn name(
    pieces: &[Piece],
    names: &mut Names,
    from: usize,
    node: u32,
) -> Result<Read<Named>, Fault>
    requires can { CanRead pieces.now names.old from node }
    ensures tree { MatchResult result (λ r. ReadsOf named_seen Name 0 (lexemes pieces.now) names.new from node r)
        (λ f. Faults Name 0 (lexemes pieces.now) names.old names.new from f) }
    ensures grows { Grows names.old names.new }
    ensures went { IfOk result (λ r. Went pieces.now names.old names.new from node r.end r.node) }
{
    let Some((text, place)) = word_at(pieces, from) else {
        return Err(Fault::Unexpected(from));
    };
    let name = number(names, text)?;
    Ok(Read {
        tree: Named { node, place, name },
        end: from + 1,
        node: node + 1,
    })
}

/// Reads a mark that closes a list, and the comma before it where one stands: tells whether the comma stands there, and the
/// number of the token behind the mark. `Unexpected` has the first token with which neither goes on. Takes no memory.
pub fn closed(pieces: &[Piece], from: usize, closer: Sign) -> Result<(bool, usize), Fault>
    requires within { from ≤ length pieces.now }
    requires closer { ¬ (closer ≡ sign_.Comma) }
    ensures tree { MatchResult result (λ r. Reads (Ending closer) 0 (lexemes pieces.now) from r.0 r.1)
        (λ f. Faults (Ending closer) 0 (lexemes pieces.now) [] [] from f) }
    ensures further { IfOk result (λ r. from < r.1) }
    ensures within { IfOk result (λ r. r.1 ≤ length pieces.now) }
{
    if let Some(_) = mark_at(pieces, from, closer) {
        return Ok((false, from + 1));
    }
    let Some(_) = mark_at(pieces, from, Sign::Comma) else {
        return Err(Fault::Unexpected(from));
    };
    let Some(_) = mark_at(pieces, from + 1, closer) else {
        return Err(Fault::Unexpected(from + 1));
    };
    Ok((true, from + 2))
}
