//! Laws of tags.

ghost use Rattle.shade_tags.specs.Laws.{AllAreAnalysed, ByCallees, ByPaths, CalleesFirst, ClosedIsTable, OneTable, OneUsed, UsedAreTags};

/// Where a table lists exactly the tags of the functions that a function calls, the tags of this function are the pairs of a source
/// and a target that its paths join over that table.
pub fn tags_are_joined_over_the_tags_of_callees()
    ensures { ByCallees }
{}

/// The tags of a function are exactly the pairs of a source and a target that its paths join, over the edges that the tags of the
/// functions that it calls give.
pub fn tags_are_joined_by_paths()
    ensures { ByPaths }
{}

/// Where calls make no cycle, a table that lists for each function exactly the pairs that its paths join over this table, in their
/// order, is the table of the module.
pub fn closed_tables_are_the_table()
    ensures { ClosedIsTable }
{}

/// A module has one table of tags.
pub fn tables_are_one()
    ensures { OneTable }
{}

/// What is told as a used tag is a tag of its function.
pub fn used_tags_are_tags()
    ensures { UsedAreTags }
{}

/// Functions are analysed after those that they call.
pub fn callees_are_analysed_first()
    ensures { CalleesFirst }
{}

/// Where calls make no cycle and are of functions that are there, all functions are analysed where none is ready any more.
pub fn all_functions_are_analysed()
    ensures { AllAreAnalysed }
{}

/// Where no two calls of a function have one number, the used tags of a module are one list, with their paths and the reasons on
/// them.
pub fn used_tags_are_one_list()
    ensures { OneUsed }
{}
