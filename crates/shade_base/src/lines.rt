//! Lines and columns of a text.

ghost use Rattle.std.specs.Prelude.{◌≡◌, ◌+◌, ◌≤◌, ◌<◌, length};
ghost use Rattle.shade_base.specs.Lines.{ends_break, place_of};

use crate::place::Place;

/// The place of a byte, or of the end of the text. Takes no memory.
pub fn place_at(text: &str, offset: u32) -> Place
    requires within { offset ≤ length text.now }
    requires small { offset < 4294967295 }
    ensures { result ≡ place_of text.now offset }
{
    let start = Place {
        offset: 0,
        line: 1,
        column: 1,
    };
    place_after(text, start, offset)
}

/// The place of a byte, or of the end of the text, from a place at or before it. Takes time for the bytes between
/// the two, and no memory.
pub fn place_after(text: &str, start: Place, offset: u32) -> Place
    requires start { start ≡ place_of text.now start.offset }
    requires later { start.offset ≤ offset }
    requires within { offset ≤ length text.now }
    requires small { offset < 4294967295 }
    ensures { result ≡ place_of text.now offset }
{
    let bytes = text.as_bytes();
    let mut line = start.line;
    let mut column = start.column;
    for at in start.offset..offset {
        if ends_break(bytes, at as usize) {
            line += 1;
            column = 1;
        } else {
            column += 1;
        }
    }
    Place {
        offset,
        line,
        column,
    }
}

/// Whether a line break ends right after the byte at `last`.
fn ends_break(bytes: &[u8], last: usize) -> bool
    requires { last < length bytes.now }
    ensures { result ≡ ends_break bytes.now (last + 1) }
{
    match bytes[last] {
        10..=12 => true,
        13 => last + 1 == bytes.len() || bytes[last + 1] != 10,
        0x85 => last >= 1 && bytes[last - 1] == 0xC2,
        0xA8 | 0xA9 => last >= 2 && bytes[last - 1] == 0x80 && bytes[last - 2] == 0xE2,
        _ => false,
    }
}
