//! Reads the tree that a list of tokens spells.

ghost use Rattle.std.specs.Prelude.{◌≡◌, ◌+◌, ◌<◌, ◌≤◌, ◌++◌, ◌∷◌, [], IfOk, MatchResult, length};
ghost use Rattle.shade_first.specs.Form.{Item, Body, Shader};
ghost use Rattle.shade_first.specs.Reads.{Reads, Faults};
ghost use Rattle.shade_first.specs.Tokens.{AreWords};

use crate::phrase::{SyntaxFault, declared, fixed, lanes, limit, placed, step_at};
use crate::step::Step;
use crate::token::{Mark, Token};
use crate::tree::{FirstItem, FirstShader};
use shade_base::Place;
use sqlite_items::Items;
use std::alloc::Global;

// At most so many braces are open at once.
const MOST_BRACES: u32 = 127;

const OPENING: [Step; 5] = [
    Step::Mark(Mark::At),
    Step::Word(b"compute"),
    Step::Mark(Mark::At),
    Step::Word(b"workgroup_size"),
    Step::Mark(Mark::Open),
];

const BEFORE_NAME: [Step; 2] = [Step::Mark(Mark::Close), Step::Word(b"fn")];

const BEFORE_PARAMETER: [Step; 6] = [
    Step::Mark(Mark::Open),
    Step::Mark(Mark::At),
    Step::Word(b"builtin"),
    Step::Mark(Mark::Open),
    Step::Word(b"local_invocation_index"),
    Step::Mark(Mark::Close),
];

const BEFORE_BODY: [Step; 4] = [
    Step::Mark(Mark::Colon),
    Step::Word(b"u32"),
    Step::Mark(Mark::Close),
    Step::Mark(Mark::OpenBrace),
];

/// Reads a shader from a place on, and says where it ends.
pub fn shader(
    alloc: Global,
    tokens: &[Token],
    from: usize,
) -> Result<(FirstShader, usize), SyntaxFault>
    requires within { from ≤ length tokens.now }
    requires words { AreWords tokens.now }
    ensures { MatchResult result (λ p. Reads Shader tokens.now from p.0 p.1) (λ f. Faults Shader tokens.now from f) }
{
    let at = fixed(tokens, from, &OPENING)?;
    let (size, at) = lanes(tokens, at)?;
    let at = fixed(tokens, at, &BEFORE_NAME)?;
    let (name, place, at) = declared(tokens, at)?;
    let at = fixed(tokens, at, &BEFORE_PARAMETER)?;
    let (parameter, _, at) = declared(tokens, at)?;
    let at = fixed(tokens, at, &BEFORE_BODY)?;
    let (items, end, next) = block(alloc, tokens, at, parameter.as_slice(), 1)?;
    Ok((
        FirstShader {
            size,
            name,
            place,
            parameter,
            items,
            end,
        },
        next,
    ))
}

// Reads statements and the brace that closes their block, and says where that stands.
#[cycle(blocks)]
fn block(
    alloc: Global,
    tokens: &[Token],
    from: usize,
    parameter: &[u8],
    braces: u32,
) -> Result<(Items<FirstItem>, Place, usize), SyntaxFault>
    requires within { from ≤ length tokens.now }
    requires shallow { braces ≤ 127 }
    ensures { MatchResult result (λ b. Reads (Body parameter.now braces) tokens.now from (b.0, b.1) b.2) (λ f. Faults (Body parameter.now braces) tokens.now from f) }
{
    let mut items = Items::new(alloc);
    let mut at = from;
    'items: loop {
        if let Some(end) = step_at(tokens, at, Step::Mark(Mark::CloseBrace)) {
            return Ok((items, end, at + 1));
        }
        let (item, next) = item(alloc, tokens, at, parameter, braces)?;
        push(&mut items, item)?;
        at = next;
    }
}

// Reads one statement.
#[cycle(blocks)]
fn item(
    alloc: Global,
    tokens: &[Token],
    from: usize,
    parameter: &[u8],
    braces: u32,
) -> Result<(FirstItem, usize), SyntaxFault>
    requires within { from ≤ length tokens.now }
    requires shallow { braces ≤ 127 }
    ensures read { MatchResult result (λ p. Reads (Item parameter.now braces) tokens.now from p.0 p.1) (λ f. Faults (Item parameter.now braces) tokens.now from f) }
    ensures further { IfOk result (λ p. from < p.1) }
{
    if let Some(place) = step_at(tokens, from, Step::Word(b"workgroupBarrier")) {
        let end = fixed(
            tokens,
            from + 1,
            &[
                Step::Mark(Mark::Open),
                Step::Mark(Mark::Close),
                Step::Mark(Mark::Semicolon),
            ],
        )?;
        return Ok((FirstItem::Barrier(place), end));
    }
    if braces == MOST_BRACES {
        return Err(SyntaxFault::Unexpected(from));
    }
    let Some(place) = step_at(tokens, from, Step::Word(b"if")) else {
        return Err(SyntaxFault::Unexpected(from));
    };
    let at = fixed(
        tokens,
        from + 1,
        &[Step::Mark(Mark::Open), Step::Word(parameter)],
    )?;
    let (operator, at) = placed(tokens, at, Step::Mark(Mark::Less))?;
    let (limit, at) = limit(tokens, at)?;
    let at = fixed(
        tokens,
        at,
        &[Step::Mark(Mark::Close), Step::Mark(Mark::OpenBrace)],
    )?;
    let (items, _, end) = block(alloc, tokens, at, parameter, braces + 1)?;
    Ok((
        FirstItem::If {
            place,
            operator,
            limit,
            items,
        },
        end,
    ))
}

fn push(items: &mut Items<FirstItem>, item: FirstItem) -> Result<(), SyntaxFault>
    ensures { MatchResult result (λ u. items.new ≡ items.old ++ item ∷ []) (λ f. f ≡ SyntaxFault.NoMemory) }
{
    match items.push(item) {
        Ok(()) => Ok(()),
        Err(_) => Err(SyntaxFault::NoMemory),
    }
}
