//! A pool of 64 cells, into which callers on several threads put seeds and from which they take them.
#![tactic(auto)]

mod calls;
mod cells;
mod ending;
mod making;
mod of_circuit;
mod pool;
mod rule;
mod seat;
mod seats;
mod slots;
mod table;
mod view;

pub use ending::end_pool;
pub use making::make_pool;
pub use of_circuit::OfCircuit;
pub use pool::SeedPool;
pub use seat::PoolSeat;
pub use seats::PoolSeats;
