// The chip: its parts, its calls, and when two chips are the same.
#![tactic(auto)]

pub mod calls;
mod captures;
mod cells;
pub mod client;
mod copies;
pub mod delivered;
mod events;
mod moves;
pub mod part;
pub mod places;
pub mod sameness;
pub mod unit;
