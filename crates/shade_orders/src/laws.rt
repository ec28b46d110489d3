//! The law of schedules for the machine that runs a workgroup.

ghost use Rattle.shade_orders.specs.Orders.{OrdersAgree};

/// Says that where one list of steps of an entry ended, no list diverges, and each that ends releases the same instances in the same order.
pub fn orders_agree()
    ensures { OrdersAgree }
{}
