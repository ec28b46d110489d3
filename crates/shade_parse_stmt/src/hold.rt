//! What was read before, kept while more is read.

ghost use Rattle.std.specs.Prelude.{◌≡◌, ◌≤◌, ◌<◌, ◌+◌, ◌^◌, ℕ, length, slice_get, Some, Ok, Err, IfOk, MatchResult};
ghost use Rattle.shade_base.specs.declared.place.Place.{Place as PlaceOf};
ghost use Rattle.shade_ast.specs.Lexemes.{Mark};
ghost use Rattle.shade_cursor.specs.Shown.{lexemes};

use crate::marks::is_mark;
use shade_ast::Sign;
use shade_cursor::part::Fault;
use shade_cursor::piece::Piece;
use shade_parse_simple::read::Read;

/// What was read with the mark behind it.
pub fn before<T: Drop>(pieces: &[Piece], part: Read<T>, sign: Sign) -> Result<Read<T>, Fault>
    ensures mark { MatchResult result (λ r. (p : PlaceOf) × (slice_get (lexemes pieces.now) part.end ≡ Some (Mark sign p)))
        (λ f. (p : PlaceOf) → ¬ (slice_get (lexemes pieces.now) part.end ≡ Some (Mark sign p))) }
    ensures fault { MatchResult result (λ r. r.tree ≡ part.tree) (λ f. f ≡ Fault.Unexpected part.end) }
    ensures end { IfOk result (λ r. r.end ≡ part.end + 1) }
    ensures node { IfOk result (λ r. r.node ≡ part.node) }
    ensures within { IfOk result (λ r. r.end ≤ length pieces.now) }
{
    if !is_mark(pieces, part.end, sign) {
        return Err(Fault::Unexpected(part.end));
    }
    Ok(Read {
        tree: part.tree,
        end: part.end + 1,
        node: part.node,
    })
}

/// A part that was read, and what was read behind it.
pub fn both<A: Drop, B: Drop>(first: A, second: Result<B, Fault>) -> Result<(A, B), Fault>
    ensures { MatchResult result (λ p. (p.0 ≡ first) × (second ≡ Ok p.1)) (λ f. second ≡ Err f) }
{
    match second {
        Ok(read) => Ok((first, read)),
        Err(fault) => Err(fault),
    }
}
