//! The letters that name parts of vectors.

ghost use Rattle.std.specs.Prelude.{◌≡◌};
ghost use Rattle.shade_typing.specs.Parts.{color, four_letters, letter_place, letters_by, letters_of, one_letter, place_by, position, three_letters, two_letters, within};

/// One of the two sets of letters.
#[derive(Clone, Copy, Debug, PartialEq, Eq)]
pub enum LetterSet {
    /// `xyzw`.
    Position,
    /// `rgba`.
    Color,
}

/// Which parts of a vector are taken, in order.
#[derive(Clone, Copy, Debug, PartialEq, Eq)]
pub enum Letters {
    One(u8),
    Two(u8, u8),
    Three(u8, u8, u8),
    Four(u8, u8, u8, u8),
}

fn position(letter: u8) -> Option<u8>
    ensures { result ≡ position letter }
{
    match letter {
        b'x' => Some(0),
        b'y' => Some(1),
        b'z' => Some(2),
        b'w' => Some(3),
        _ => None,
    }
}

fn color(letter: u8) -> Option<u8>
    ensures { result ≡ color letter }
{
    match letter {
        b'r' => Some(0),
        b'g' => Some(1),
        b'b' => Some(2),
        b'a' => Some(3),
        _ => None,
    }
}

fn place_by(set: LetterSet, letter: u8) -> Option<u8>
    ensures { result ≡ place_by set letter }
{
    match set {
        LetterSet::Position => position(letter),
        LetterSet::Color => color(letter),
    }
}

fn within(count: u8, place: Option<u8>) -> Option<u8>
    ensures { result ≡ within count place }
{
    match place {
        Some(place) => { if place < count { Some(place) } else { None } }
        None => None,
    }
}

fn letter_place(set: LetterSet, count: u8, letter: u8) -> Option<u8>
    ensures { result ≡ letter_place set count letter }
{
    within(count, place_by(set, letter))
}

fn one_letter(a: Option<u8>) -> Option<Letters>
    ensures { result ≡ one_letter a }
{
    match a {
        Some(a) => Some(Letters::One(a)),
        None => None,
    }
}

fn two_letters(a: Option<u8>, b: Option<u8>) -> Option<Letters>
    ensures { result ≡ two_letters a b }
{
    match (a, b) {
        (Some(a), Some(b)) => Some(Letters::Two(a, b)),
        _ => None,
    }
}

fn three_letters(a: Option<u8>, b: Option<u8>, c: Option<u8>) -> Option<Letters>
    ensures { result ≡ three_letters a b c }
{
    match (a, b, c) {
        (Some(a), Some(b), Some(c)) => Some(Letters::Three(a, b, c)),
        _ => None,
    }
}

fn four_letters(a: Option<u8>, b: Option<u8>, c: Option<u8>, d: Option<u8>) -> Option<Letters>
    ensures { result ≡ four_letters a b c d }
{
    match (a, b, c, d) {
        (Some(a), Some(b), Some(c), Some(d)) => Some(Letters::Four(a, b, c, d)),
        _ => None,
    }
}

fn letters_by(set: LetterSet, count: u8, text: &[u8]) -> Option<Letters>
    ensures { result ≡ letters_by set count text.now }
{
    match text {
        [a] => one_letter(letter_place(set, count, *a)),
        [a, b] => two_letters(letter_place(set, count, *a), letter_place(set, count, *b)),
        [a, b, c] => three_letters(
            letter_place(set, count, *a),
            letter_place(set, count, *b),
            letter_place(set, count, *c),
        ),
        [a, b, c, d] => four_letters(
            letter_place(set, count, *a),
            letter_place(set, count, *b),
            letter_place(set, count, *c),
            letter_place(set, count, *d),
        ),
        _ => None,
    }
}

/// The parts that at most four letters of one set name, of a vector with so many.
pub(crate) fn letters_of(count: u8, text: &str) -> Option<Letters>
    ensures { result ≡ letters_of count text.now }
{
    match letters_by(LetterSet::Position, count, text.as_bytes()) {
        Some(letters) => Some(letters),
        None => letters_by(LetterSet::Color, count, text.as_bytes()),
    }
}
