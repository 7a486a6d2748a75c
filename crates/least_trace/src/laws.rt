// What least values are.
ghost use Rattle.least_trace.specs.Laws.{OrderIsOne, LeastIsOne};

/// The bits of an obligation stand in one order.
pub fn order_is_one()
    ensures { OrderIsOne }
{}

/// An obligation has one list of least values, if any.
pub fn least_is_one()
    ensures { LeastIsOne }
{}
