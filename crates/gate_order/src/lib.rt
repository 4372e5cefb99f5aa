//! The order in which the gates of a circuit can be evaluated, whatever the order of their lines.
#![tactic(auto)]

mod order;

pub use order::fault::OrderFault;
pub use order::laws::{
    one_cycle, one_gate_order, order_exists, order_or_cycle, ordered_circuit, some_order_or_cycle,
    standing_order,
};
pub use order::order_gates;
pub use order::standing::stand_in_order;
