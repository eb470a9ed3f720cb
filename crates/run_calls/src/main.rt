#![tactic(auto)]

mod memory;
mod session;

use crate::session::answers_of;
use anyhow::anyhow;
use call_list::fault::Failure;
use call_list::list::parse;
use std::io::Read;

/// What is printed of a set-up that is refused.
const SET_UP_REFUSED: &str = "set-up refused 2";

// What the whole of the standard input says.
fn input(rt: &HostRuntime) -> anyhow::Result<String> {
    let mut text = String::new(rt.alloc());
    rt.stdin().read_to_string(&mut text)?;
    Ok(text)
}

fn run(rt: &HostRuntime) -> anyhow::Result<()> {
    let text = input(rt)?;
    let parsed = match parse(rt.alloc(), text.as_str()) {
        Ok(parsed) => parsed,
        Err(Failure::SetUp) => return Ok(println!(rt; "{SET_UP_REFUSED}")?),
        Err(Failure::Fault(fault)) => {
            eprintln!(rt; "{fault}")?;
            return Err(anyhow!("\"the set-up cannot be read\""));
        }
        Err(failure) => return Err(anyhow!("\"{failure}\"")),
    };
    let end = parsed.end;
    match answers_of(rt.alloc(), parsed)? {
        None => println!(rt; "{SET_UP_REFUSED}")?,
        Some(lines) => {
            for line in lines.as_slice() {
                println!(rt; "{line}")?;
            }
        }
    }
    if let Some(fault) = end {
        eprintln!(rt; "{fault}")?;
        return Err(anyhow!("\"the list ends there\""));
    }
    Ok(())
}

fn main(rt: HostRuntime) -> anyhow::Result<()> {
    run(&rt)
}
