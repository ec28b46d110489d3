//! The words that make a function an entry, that name an attribute whose arguments are not looked up, and that severities are.

ghost use Rattle.std.specs.Prelude.{◌≡◌, Some, None, slice_get, MatchOption};
ghost use Rattle.shade_ast.specs.Lexemes.{named_in};
ghost use Rattle.shade_events.specs.Words.{is_word, entry_words, builtin_words, is_one_of, severities, severity_named};

use shade_ast::Names;
use shade_base::Severity;

/// Gives the text of a name, where there is a name with this number. Takes no memory.
pub fn text_of(names: &Names, name: u32) -> Option<&str>
    ensures { MatchOption result (slice_get names.now name ≡ None) (λ text. slice_get names.now name ≡ Some text.now) }
{
    if (name as usize) < names.len() {
        return Some(names.text(name));
    }
    None
}

fn is_entry_word(text: &str) -> bool
    ensures { result ≡ is_word entry_words text.now }
{
    match text {
        "compute" | "workgroup_size" => true,
        _ => false,
    }
}

/// Whether an attribute of this name makes a function an entry.
pub fn makes_entry(names: &Names, name: u32) -> bool
    ensures { result ≡ is_one_of entry_words names.now name }
{
    match text_of(names, name) {
        Some(text) => is_entry_word(text),
        None => false,
    }
}

fn is_builtin_word(text: &str) -> bool
    ensures { result ≡ is_word builtin_words text.now }
{
    match text {
        "builtin" => true,
        _ => false,
    }
}

/// Whether a name is `builtin`.
pub fn is_builtin(names: &Names, name: u32) -> bool
    ensures { result ≡ is_one_of builtin_words names.now name }
{
    match text_of(names, name) {
        Some(text) => is_builtin_word(text),
        None => false,
    }
}

fn severity_of(text: &str) -> Option<Severity>
    ensures { result ≡ named_in severities text.now }
{
    match text {
        "error" => Some(Severity::Error),
        "warning" => Some(Severity::Warning),
        "info" => Some(Severity::Info),
        "off" => Some(Severity::Off),
        _ => None,
    }
}

/// The severity that a name is.
pub fn severity_named(names: &Names, name: u32) -> Option<Severity>
    ensures { result ≡ severity_named names.now name }
{
    match text_of(names, name) {
        Some(text) => severity_of(text),
        None => None,
    }
}
