//! Laws of texts of the first form.

ghost use Rattle.shade_first.specs.Continuations.{BeginningsAreTexts};
ghost use Rattle.shade_first.specs.Laws.{OneModule, OnePlace, NeverBoth, FewStatements};

/// A text stands for one module at most.
pub fn one_module()
    ensures { OneModule }
{}

/// A text leaves the form at one place at most.
pub fn one_place()
    ensures { OnePlace }
{}

/// A text that stands for a module does not leave the form.
pub fn never_both()
    ensures { NeverBoth }
{}

/// A module has fewer statements, its last Return aside, than the text that stands for it has bytes.
pub fn few_statements()
    ensures { FewStatements }
{}

/// Tokens with which some shader begins are those with which some text of the form begins, its number of bytes left free.
pub fn beginnings_are_texts()
    ensures { BeginningsAreTexts }
{}
