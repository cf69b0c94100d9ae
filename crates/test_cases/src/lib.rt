//! Cases of the library's calls: worked cases, the Rust crate's tests under their names, and what no contract says; and cases of
//! the definitions that contracts cite.
#![tactic(auto)]

#[cfg(test)]
mod as_of;
#[cfg(test)]
mod by_name;
#[cfg(test)]
mod calls;
#[cfg(test)]
mod debug;
mod definitions;
#[cfg(test)]
mod guarded;
#[cfg(test)]
mod numbers;
#[cfg(test)]
mod reading;
#[cfg(test)]
mod searches;
#[cfg(test)]
mod streams;
#[cfg(test)]
mod surface;
#[cfg(test)]
mod texts;
#[cfg(test)]
mod units;
#[cfg(test)]
mod walks;
#[cfg(test)]
mod writing;
