//! Laws, each the contract of a function without a body of its own.

ghost use Rattle.shade_tasks.specs.Laws.{StepsFindOneThing, TakesEndInOneWay};

use shade_known::law::{converts_in_one_way, keeps_in_one_way, operates_in_one_way};

/// What a step finds of its node, or why it is refused, is one thing by what is known before it.
pub fn steps_find_one_thing()
    ensures { StepsFindOneThing }
{
    operates_in_one_way();
    converts_in_one_way();
}

/// How steps end that are taken from what is known is one thing, and so is what is known then.
pub fn takes_end_in_one_way()
    ensures { TakesEndInOneWay }
{
    steps_find_one_thing();
    keeps_in_one_way();
}
