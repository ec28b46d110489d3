//! Laws, each the contract of a function without a body of its own.

ghost use Rattle.shade_known.specs.Laws.{OperatesInOneWay, ConvertsInOneWay, KeepsInOneWay};

use shade_overload::law::at_most_one_is_best;

/// What an operator or a built-in function gives is one thing.
pub fn operates_in_one_way()
    ensures { OperatesInOneWay }
{
    at_most_one_is_best();
}

/// What an operand becomes where a type is asked of it is one thing.
pub fn converts_in_one_way()
    ensures { ConvertsInOneWay }
{}

/// What is known once something is found of a node is one thing.
pub fn keeps_in_one_way()
    ensures { KeepsInOneWay }
{}
