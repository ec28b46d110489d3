//! Comments.

ghost use Rattle.std.specs.Prelude.{◌≡◌, ℕ, ◌+◌, ◌<◌, ◌≤◌, true, length, IfSome, IfNone};
ghost use Rattle.shade_lex.specs.Characters.{is_line_break, is_blankspace, starts_with_two};
ghost use Rattle.shade_lex.specs.Comments.{IsLineComment, IsBlockComment, IsCommentStep};

/// How many characters the comment at the front has, which ends with its line.
pub fn line_comment(text: &[char]) -> usize
    requires { starts_with_two 47 47 text.now ≡ true }
    ensures { IsLineComment text.now result }
{
    for at in 2..text.len() {
        if is_line_break(text[at]) {
            return at;
        }
    }
    text.len()
}

/// How many characters the comment at the front has, which ends with its `*/`, and `None` where it is not closed.
pub fn block_comment(text: &[char]) -> Option<usize>
    requires { starts_with_two 47 42 text.now ≡ true }
    ensures closed { IfSome result (IsBlockComment text.now) }
    ensures open_one { IfNone result ((count : ℕ) → IsBlockComment text.now count → ⊥) }
{
    let mut depth = 1;
    let mut at = 2;
    'comment: while at < text.len() {
        let (next, open_comments) = comment_step(text, at, depth);
        at = next;
        depth = open_comments;
        if depth == 0 {
            return Some(at);
        }
    }
    None
}

/// The place after the next mark or character of a comment, and how many comments are open there.
fn comment_step(text: &[char], at: usize, depth: usize) -> (usize, usize)
    requires within { at < length text.now }
    requires some { 1 ≤ depth }
    requires few { depth ≤ at }
    ensures { IsCommentStep text.now at depth result.0 result.1 }
{
    if starts_with_two(&text[at..], '*', '/') {
        (at + 2, depth - 1)
    } else if starts_with_two(&text[at..], '/', '*') {
        (at + 2, depth + 1)
    } else {
        (at + 1, depth)
    }
}

/// Whether the first two characters are these.
pub fn starts_with_two(text: &[char], first: char, second: char) -> bool
    ensures { result ≡ starts_with_two first second text.now }
{
    match text {
        [one, two, ..] => *one == first && *two == second,
        _ => false,
    }
}

/// Whether a line ends with the character.
pub fn is_line_break(c: char) -> bool
    ensures { result ≡ is_line_break c }
{
    matches!(c, '\u{a}'..='\u{d}' | '\u{85}' | '\u{2028}' | '\u{2029}')
}

/// Whether the character is a blank by itself.
pub fn is_blankspace(c: char) -> bool
    ensures { result ≡ is_blankspace c }
{
    matches!(c, ' ' | '\t' | '\u{200e}' | '\u{200f}') || is_line_break(c)
}
