//! What the functions of the example crates answer where their contracts leave it open: values, and that memory is enough.
#![tactic(auto)]

#[cfg(test)]
mod counts;
#[cfg(test)]
mod joins;
#[cfg(test)]
mod walks;
