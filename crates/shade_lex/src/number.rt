//! The value of a number, and what cannot stand after it.

ghost use Rattle.std.specs.Prelude.{◌≡◌, ◌+◌, ◌*◌, ◌^◌, ◌<◌, ◌≤◌, None, Some, IfOk, IfErr, MatchOption};
ghost use Rattle.std.specs.Option.{SomeIff};
ghost use Rattle.unicode_ident.specs.Ident.{is_xid_continue};
ghost use Rattle.shade_lex.specs.Characters.{starts};
ghost use Rattle.shade_lex.specs.Lexemes.{is_suffix, digit_of, is_hexadecimal, value_run, number_value, suffix_of, greatest, goes_on_as_float, number_problem};

use crate::lexeme::is_x;
use crate::piece::Problem;
use crate::token::{Suffix, TokenKind};
use unicode_ident::is_xid_continue;

/// What a number is, before the rest of the text.
pub fn number_kind(number: &[char], after: &[char]) -> Result<TokenKind, Problem>
    ensures kind { IfOk result (λ kind. (number_problem number.now after.now ≡ None) × (kind ≡ TokenKind.Number (number_value number.now) (suffix_of number.now))) }
    ensures problem { IfErr result (λ problem. number_problem number.now after.now ≡ Some problem) }
{
    if goes_on_as_float(after, is_hexadecimal(number)) {
        return Err(Problem::FloatLiteral);
    }
    if goes_on_as_word(after) {
        return Err(Problem::BadNumber);
    }
    let suffix = suffix_of(number);
    match number_value(number) {
        Some(value) if value <= greatest(suffix) => Ok(TokenKind::Number { value, suffix }),
        _ => Err(Problem::NumberTooLarge),
    }
}

fn is_hexadecimal(number: &[char]) -> bool
    ensures { result ≡ is_hexadecimal number.now }
{
    match number {
        [_, second, ..] => is_x(*second),
        _ => false,
    }
}

/// Whether what follows a number makes it a number with a fraction or an exponent.
fn goes_on_as_float(after: &[char], hexadecimal: bool) -> bool
    ensures { result ≡ starts (goes_on_as_float hexadecimal) after.now }
{
    match after {
        [next, ..] => is_float_mark(*next, hexadecimal),
        [] => false,
    }
}

fn is_float_mark(c: char, hexadecimal: bool) -> bool
    ensures { result ≡ goes_on_as_float hexadecimal c }
{
    if hexadecimal {
        matches!(c, '.' | 'p' | 'P')
    } else {
        matches!(c, '.' | 'e' | 'E' | 'f' | 'h')
    }
}

fn goes_on_as_word(after: &[char]) -> bool
    ensures { result ≡ starts is_xid_continue after.now }
{
    match after {
        [next, ..] => is_xid_continue(*next),
        [] => false,
    }
}

fn suffix_of(number: &[char]) -> Suffix
    ensures { result ≡ suffix_of number.now }
{
    match number.last() {
        Some('i') => Suffix::Signed,
        Some('u') => Suffix::Unsigned,
        _ => Suffix::Plain,
    }
}

/// The greatest number that a suffix allows.
fn greatest(suffix: Suffix) -> u64
    ensures { result ≡ greatest suffix }
{
    match suffix {
        Suffix::Plain => 9_223_372_036_854_775_807,
        Suffix::Signed => 2_147_483_647,
        Suffix::Unsigned => 4_294_967_295,
    }
}

/// The value of a number, and `None` where it does not fit.
fn number_value(number: &[char]) -> Option<u64>
    ensures { MatchOption result (2 ^ 64 ≤ number_value number.now) (λ value. value ≡ number_value number.now) }
{
    if is_hexadecimal(number) {
        value_of(&number[2..], 16)
    } else {
        value_of(number, 10)
    }
}

/// The value of digits up to a suffix, and `None` where it does not fit.
fn value_of(digits: &[char], radix: u64) -> Option<u64>
    requires { 1 ≤ radix }
    ensures { MatchOption result (2 ^ 64 ≤ value_run radix 0 digits.now) (λ value. value ≡ value_run radix 0 digits.now) }
{
    let mut value = 0;
    for c in digits {
        if is_suffix(*c) {
            return Some(value);
        }
        match with_digit(value, radix, digit_of(*c)) {
            Some(next) => value = next,
            None => return None,
        }
    }
    Some(value)
}

fn with_digit(value: u64, radix: u64, digit: u64) -> Option<u64>
    ensures { SomeIff result (value * radix + digit < 2 ^ 64) (value * radix + digit) }
{
    value.checked_mul(radix)?.checked_add(digit)
}

fn digit_of(c: char) -> u64
    ensures { result ≡ digit_of c }
{
    match c.to_digit(16) {
        Some(digit) => u64::from(digit),
        None => 0,
    }
}

fn is_suffix(c: char) -> bool
    ensures { result ≡ is_suffix c }
{
    matches!(c, 'i' | 'u')
}
