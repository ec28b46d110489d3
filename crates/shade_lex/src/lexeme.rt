//! The longest word, number and mark at the front of a text.

ghost use Rattle.std.specs.Prelude.{◌≡◌, true, ◌+◌, ◌≤◌, length, drop, cond};
ghost use Rattle.std.specs.Char.{is_ascii_digit, is_ascii_hexdigit};
ghost use Rattle.unicode_ident.specs.Ident.{is_xid_continue};
ghost use Rattle.shade_lex.specs.Lexemes.{is_word, is_number, is_mark, is_suffix, is_x, is_bracket, takes_equals, is_lone_mark, is_doubled, is_pair};
ghost use Rattle.shade_lex.specs.Characters.{starts};
ghost use Rattle.shade_lex.specs.Counts.{count, word_count, suffix_count, starts_hexadecimal, digits_count, number_count, starts_three, starts_pair, is_single, mark_count};

use unicode_ident::{is_xid_continue, is_xid_start};

/// How many characters the word at the front has, 0 where none begins.
pub fn word_length(text: &[char]) -> usize
    ensures { result ≡ word_count text.now }
{
    let begins = match text {
        [first, ..] if is_xid_start(*first) => true,
        ['_', second, ..] => is_xid_continue(*second),
        _ => false,
    };
    if begins { word_end(text, 1) } else { 0 }
}

/// Where the characters that words go on with end.
fn word_end(text: &[char], from: usize) -> usize
    requires { from ≤ length text.now }
    ensures { result ≡ count is_xid_continue (drop from text.now) + from }
{
    for at in from..text.len() {
        if !is_xid_continue(text[at]) {
            return at;
        }
    }
    text.len()
}

/// How many characters the number at the front has, 0 where none begins.
pub fn number_length(text: &[char]) -> usize
    ensures { result ≡ number_count text.now }
{
    if starts_with_digit(text) {
        suffix_end(text, number_digits_end(text))
    } else {
        0
    }
}

fn starts_with_digit(text: &[char]) -> bool
    ensures { result ≡ starts is_ascii_digit text.now }
{
    match text {
        [first, ..] => first.is_ascii_digit(),
        [] => false,
    }
}

/// Where the digits of a number end.
fn number_digits_end(text: &[char]) -> usize
    requires { starts is_ascii_digit text.now ≡ true }
    ensures end { result ≡ digits_count text.now }
    ensures within { result ≤ length text.now }
{
    if starts_hexadecimal(text) {
        digits_end(text, 2, true)
    } else if text[0] == '0' {
        1
    } else {
        digits_end(text, 1, false)
    }
}

/// Whether a hexadecimal number begins.
fn starts_hexadecimal(text: &[char]) -> bool
    ensures { result ≡ starts_hexadecimal text.now }
{
    match text {
        [zero, x, digit, ..] => *zero == '0' && is_x(*x) && digit.is_ascii_hexdigit(),
        _ => false,
    }
}

/// Where the digits end.
fn digits_end(text: &[char], from: usize, hexadecimal: bool) -> usize
    requires { from ≤ length text.now }
    ensures end { result ≡ count (cond hexadecimal is_ascii_hexdigit is_ascii_digit) (drop from text.now) + from }
    ensures within { result ≤ length text.now }
{
    for at in from..text.len() {
        if !is_digit(text[at], hexadecimal) {
            return at;
        }
    }
    text.len()
}

fn is_digit(c: char, hexadecimal: bool) -> bool
    ensures { result ≡ cond hexadecimal is_ascii_hexdigit is_ascii_digit c }
{
    if hexadecimal {
        c.is_ascii_hexdigit()
    } else {
        c.is_ascii_digit()
    }
}

/// Where a number ends whose digits end at a place.
fn suffix_end(text: &[char], end: usize) -> usize
    requires { end ≤ length text.now }
    ensures { result ≡ suffix_count (drop end text.now) + end }
{
    match &text[end..] {
        ['i' | 'u', ..] => end + 1,
        _ => end,
    }
}

/// Whether it is the letter after the `0` of a hexadecimal number.
pub fn is_x(c: char) -> bool
    ensures { result ≡ is_x c }
{
    matches!(c, 'x' | 'X')
}

/// How many characters the mark at the front has, 0 where none begins.
pub fn mark_length(text: &[char]) -> usize
    ensures { result ≡ mark_count text.now }
{
    if starts_with_three(text) {
        3
    } else if starts_with_pair(text) {
        2
    } else if starts_with_one(text) {
        1
    } else {
        0
    }
}

fn starts_with_three(text: &[char]) -> bool
    ensures { result ≡ starts_three text.now }
{
    match text {
        [first, second, third, ..] => *first == '<' && *second == '<' && *third == '=',
        _ => false,
    }
}

fn starts_with_pair(text: &[char]) -> bool
    ensures { result ≡ starts_pair text.now }
{
    match text {
        [first, second, ..] => is_pair(*first, *second),
        _ => false,
    }
}

fn starts_with_one(text: &[char]) -> bool
    ensures { result ≡ starts is_single text.now }
{
    match text {
        [first, ..] => is_bracket(*first) || takes_equals(*first) || is_lone(*first),
        [] => false,
    }
}

fn is_bracket(c: char) -> bool
    ensures { result ≡ is_bracket c }
{
    matches!(c, '(' | ')' | '[' | ']' | '{' | '}')
}

/// Whether it is a mark which may have an `=` after it.
fn takes_equals(c: char) -> bool
    ensures { result ≡ takes_equals c }
{
    matches!(
        c,
        '+' | '-' | '*' | '/' | '%' | '&' | '|' | '^' | '!' | '<' | '='
    )
}

/// Whether it is a mark which is always one by itself.
fn is_lone(c: char) -> bool
    ensures { result ≡ is_lone_mark c }
{
    matches!(c, '>' | '~' | '.' | ',' | ';' | ':' | '@' | '_')
}

/// Whether two characters are one mark.
fn is_pair(first: char, second: char) -> bool
    ensures { result ≡ is_pair first second }
{
    match (first, second) {
        ('-', '>') => true,
        (_, '=') => takes_equals(first),
        ('&' | '|' | '<' | '+' | '-', _) => first == second,
        _ => false,
    }
}
