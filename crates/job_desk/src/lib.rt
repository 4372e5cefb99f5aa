//! A desk that hands out the numbers of jobs to callers on several threads, each number to exactly one.
#![tactic(auto)]

mod claims;
mod desk;
mod finishing;
mod making;
mod rule;
mod seat;
mod seats;
mod table;
mod view;

pub use claims::Claims;
pub use desk::JobDesk;
pub use finishing::finish;
pub use making::make_desk;
pub use seat::JobSeat;
pub use seats::JobSeats;
