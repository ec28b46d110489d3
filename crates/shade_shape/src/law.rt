//! What the shape of a module gives the layers behind it, as functions that do nothing.

ghost use Rattle.shade_shape.specs.Laws.{EntriesStart, FunctionsAreNumbered};

/// Each entry of a module of the shape has 1 to 256 lanes, no result, and a Return at its end.
pub fn entries_start()
    ensures { EntriesStart }
{}

/// Functions, parameters and statements of a module of the shape have numbers of 32 bits.
pub fn functions_are_numbered()
    ensures { FunctionsAreNumbered }
{}
