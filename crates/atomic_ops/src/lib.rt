//! The atomic operations of a key-value database: what each leaves at a key.
#![tactic(auto)]

mod bitwise;
mod byte_order;
mod fitting;
mod laws;
mod number;
mod op;
mod results;
mod table;
#[cfg(test)]
mod tests;

pub use laws::{code_laws, fitting_laws, number_laws, operation_laws};
pub use op::Op;
pub use results::apply;
