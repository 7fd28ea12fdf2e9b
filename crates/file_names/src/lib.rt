//! The names of a container's files, each with one spelling.
#![tactic(auto)]

mod laws;
mod name;
mod parsing;
mod printing;

pub use laws::{one_name, spelling_is_read};
pub use name::Name;
pub use parsing::{number_at, parse};
pub use printing::print;

#[cfg(test)]
mod tests;
