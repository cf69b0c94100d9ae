//! Small programs over groups, each proved with no proof file: `docs/CALLING.md` and the README show some, and name the
//! others. Each module prints what its own give.
#![tactic(auto)]

mod bytes;
mod closures;
mod first_page;
mod joins;
mod keys;
mod loops;
mod numbers;
mod offsets;
mod recipes;
mod rest;
mod returned;
mod searches;
mod streams;
mod tokens;

use std::io;

fn main(rt: HostRuntime) -> io::Result<()> {
    returned::print_all(&rt)?;
    loops::print_all(&rt)?;
    numbers::print_all(&rt)?;
    offsets::print_all(&rt)?;
    keys::print_all(&rt)?;
    joins::print_all(&rt)?;
    searches::print_all(&rt)?;
    closures::print_all(&rt)?;
    rest::print_all(&rt)?;
    recipes::print_all(&rt)?;
    streams::print_all(&rt)?;
    tokens::print_all(&rt)?;
    bytes::print_all(&rt)?;
    first_page::print_all(&rt)
}
