//! Laws, each the contract of a function without a body of its own.

ghost use Rattle.shade_declared.specs.Laws.{OrdersHaveEachOnce, OrdersGoBehindNames, OrdersAreOne};

/// An order has all declarations, each once.
pub fn orders_have_each_once()
    ensures { OrdersHaveEachOnce }
{}

/// Each declaration stands behind those that it names, where none needs itself.
pub fn orders_go_behind_names()
    ensures { OrdersGoBehindNames }
{}

/// Declarations have one order.
pub fn orders_are_one()
    ensures { OrdersAreOne }
{}
