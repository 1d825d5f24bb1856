#![tactic(auto)]

pub mod close;
pub mod decode;
pub mod ident;
pub mod instruct;
pub mod latch;
pub mod page;
pub mod query;
pub mod register;
pub mod shift;
pub mod state;
