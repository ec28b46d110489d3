//! Laws of the table, each the contract of a function without a body.

ghost use Rattle.shade_overload.specs.Laws.{AtMostOneIsBest, OperationsTakeTheirRows, ResultsStayInRange};

/// At most one row is best.
pub fn at_most_one_is_best()
    ensures { AtMostOneIsBest }
{}

/// The operation of a row takes its parameters, and gives its result.
pub fn operations_take_their_rows()
    ensures { OperationsTakeTheirRows }
{}

/// The results of operations on scalars are in the range of their scalar.
pub fn results_stay_in_range()
    ensures { ResultsStayInRange }
{}
