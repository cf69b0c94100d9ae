//! Runs worked rows through the library, and prints the answers of each.
//!
//! It takes no arguments and reads nothing. The status is 0 exactly if every row gave what is wanted.
#![tactic(auto)]

ghost use Rattle.std.specs.Prelude.{◌≡◌, ◌≤◌, ◌↔◌, Ok, true};

mod rows;
#[cfg(test)]
mod tests;

use std::io::Error;
use std::process::ExitCode;

fn main(rt: HostRuntime) -> ExitCode {
    let mut out = rt.stdout();
    ExitCode::from(status_of(rows::run(&mut out)))
}

// The status of a run with this answer: 0 exactly if every row gave what is wanted, and else 1.
fn status_of(same: Result<bool, Error>) -> u8
    ensures whole { (result ≡ 0) ↔ (same ≡ Ok true) }
    ensures most { result ≤ 1 }
{
    match same {
        Ok(true) => 0,
        Ok(false) | Err(_) => 1,
    }
}
