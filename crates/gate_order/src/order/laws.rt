//! Laws of the order of gates, as clauses of functions that do nothing.

ghost use Rattle.gate_order.specs.OrderLaws.{OneGateOrder, OneCycle, OrderExists, OrderOrCycle, OrderedCircuit, SomeOrderOrCycle, StandingOrder};

/// Gates have at most one order.
pub fn one_gate_order()
    ensures { OneGateOrder }
{}

/// Gates none of which depends on itself have an order.
pub fn order_exists()
    ensures { OrderExists }
{}

/// At most one left side is named as the least that depends on a gate that depends on itself.
pub fn one_cycle()
    ensures { OneCycle }
{}

/// Gates that have an order have no cycle.
pub fn order_or_cycle()
    ensures { OrderOrCycle }
{}

/// Parts that are a circuit but for the order of their gates are one with their gates in order.
pub fn ordered_circuit()
    ensures { OrderedCircuit }
{}

/// Gates that define variables of their own have an order, or one of them depends on itself.
pub fn some_order_or_cycle()
    ensures { SomeOrderOrCycle }
{}

/// Gates whose variables rise, each above those of its gate's inputs, are their own order.
pub fn standing_order()
    ensures { StandingOrder }
{}
