//! Tuples of values as keys whose byte order is the order of the tuples.
#![tactic(auto)]

mod element;
mod fault;
mod numbers;
mod order;
mod packing;
mod subspace;
mod tuple;
mod unpacking;

pub use element::Element;
pub use fault::TupleFault;
pub use order::order_law;
pub use packing::pack;
pub use subspace::Subspace;
pub use tuple::Tuple;
pub use unpacking::unpack;

#[cfg(test)]
mod tests;
