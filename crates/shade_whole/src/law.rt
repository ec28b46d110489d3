//! What the shape of a module gives the layers behind it, as functions that do nothing.

ghost use Rattle.shade_whole.specs.Laws.{CallsHaveOrder, EntriesRun, FunctionsAreCounted, StatementsAreNumbered};

use shade_shape::entries_start;

/// The statements of each function of a module of the shape are numbered in structure order, as the laws of lanes ask.
pub fn statements_are_numbered()
    ensures { StatementsAreNumbered }
{}

/// Each entry of a module of the shape that has rules is one that a lane and a workgroup can be begun for: it has 1 to 256 lanes
/// and ends in a return.
pub fn entries_run()
    ensures { EntriesRun }
{
    entries_start();
}

/// The calls of a module of the shape make no cycle and have fewer than 2^32 arguments each, and it has fewer than 2^32 functions, as is
/// asked before aliases are looked for.
pub fn calls_have_order()
    ensures { CallsHaveOrder }
{}

/// In a module of the shape, each function of fewer than 2^31 statements has points, parameters and arguments with numbers of 32 bits,
/// as is asked before what reaches its statements is searched.
pub fn functions_are_counted()
    ensures { FunctionsAreCounted }
{}
