//! The attributes of the profile, and what `@builtin` names.

ghost use Rattle.std.specs.Prelude.{◌≡◌, Some, None, MatchOption};
ghost use Rattle.shade_ast.specs.Lexemes.{named_in};
ghost use Rattle.shade_steps.specs.Statements.{only_word};
ghost use Rattle.shade_events.specs.Filters.{word_of};
ghost use Rattle.shade_attributes.specs.Words.{attr_text, input_named, input_words, kind_named, kind_words};

use shade_ast::{Arguments, AttrName, Expr, ExprKind, Names};
use shade_events::text_of;

/// An attribute of the profile.
#[derive(Clone, Copy, Debug, PartialEq, Eq)]
pub enum Kind {
    Compute,
    WorkgroupSize,
    Group,
    Binding,
    Builtin,
    MustUse,
    Diagnostic,
}

/// What an entry is handed: by the word that `@builtin` has for it.
#[derive(Clone, Copy, Debug, PartialEq, Eq)]
pub enum Input {
    LocalId,
    LocalIndex,
    GlobalId,
    GroupId,
    GroupCount,
}

/// The attribute that a word is, if it is one of the profile.
pub(crate) fn kind_word(text: &str) -> Option<Kind>
    ensures { result ≡ named_in kind_words text.now }
{
    match text {
        "compute" => Some(Kind::Compute),
        "workgroup_size" => Some(Kind::WorkgroupSize),
        "group" => Some(Kind::Group),
        "binding" => Some(Kind::Binding),
        "builtin" => Some(Kind::Builtin),
        "must_use" => Some(Kind::MustUse),
        "diagnostic" => Some(Kind::Diagnostic),
        _ => None,
    }
}

/// What a word of `@builtin` names, if it is one of the profile.
pub(crate) fn input_word(text: &str) -> Option<Input>
    ensures { result ≡ named_in input_words text.now }
{
    match text {
        "local_invocation_id" => Some(Input::LocalId),
        "local_invocation_index" => Some(Input::LocalIndex),
        "global_invocation_id" => Some(Input::GlobalId),
        "workgroup_id" => Some(Input::GroupId),
        "num_workgroups" => Some(Input::GroupCount),
        _ => None,
    }
}

/// The text of the name of an attribute, where there is a name with its number.
pub(crate) fn attr_text(names: &Names, name: AttrName) -> Option<&str>
    ensures { MatchOption result (attr_text names.now name ≡ None) (λ text. attr_text names.now name ≡ Some text.now) }
{
    match name {
        AttrName::Name(name) => text_of(names, name.name),
        AttrName::Diagnostic(_) => Some("diagnostic"),
        AttrName::Const(_) => Some("const"),
    }
}

/// The attribute of the profile that has a name.
pub(crate) fn kind_named(names: &Names, name: AttrName) -> Option<Kind>
    ensures { result ≡ kind_named names.now name }
{
    match attr_text(names, name) {
        Some(text) => kind_word(text),
        None => None,
    }
}

fn word_of(e: &Expr) -> Option<u32>
    ensures { result ≡ word_of e.now }
{
    match &e.kind {
        ExprKind::Name(name) => Some(*name),
        _ => None,
    }
}

/// The name that is the only argument.
pub(crate) fn only_word(arguments: &Option<Arguments>) -> Option<u32>
    ensures { result ≡ only_word arguments.now }
{
    let Some(arguments) = arguments else {
        return None;
    };
    match arguments.items.as_slice() {
        [e] => word_of(e),
        _ => None,
    }
}

/// What the name with a number is for `@builtin`.
pub(crate) fn input_named(names: &Names, name: Option<u32>) -> Option<Input>
    ensures { result ≡ input_named names.now name }
{
    let Some(name) = name else {
        return None;
    };
    match text_of(names, name) {
        Some(text) => input_word(text),
        None => None,
    }
}
