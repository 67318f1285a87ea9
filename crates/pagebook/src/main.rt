// pagebook: reads scenarios line by line, from files or standard input, and prints what each line answers.
#![tactic(auto)]

mod answers;
mod command;
mod desk;
mod fault;
mod memory;
mod read_command;
#[cfg(test)]
mod scenarios;
mod session;
#[cfg(test)]
mod tests;

use fault::Fault;
use session::Session;
use std::env;
use std::fs::File;
use std::io::{BufRead, BufReader};
use std::process::ExitCode;

// Goes through a scenario, a line at a time, up to the first line that is refused.
fn run<I: BufRead + Drop>(rt: &HostRuntime, mut input: I) -> Result<(), Fault> {
    let mut session = Session::new();
    // One buffer for all lines: `split` would ask for memory anew for each.
    let mut line = Vec::new(rt.alloc());
    for number in 1..u64::MAX {
        line.clear();
        if input.read_until(b'\n', &mut line)? == 0 {
            break;
        }
        line.pop_if(|b| *b == b'\n');
        let answer = session
            .respond(rt.alloc(), line.as_slice())
            .map_err(|refusal| Fault::at(number, refusal))?;
        if let Some(answer) = answer {
            rt.println(answer)?;
        }
    }
    Ok(())
}

// Goes through the files that are named, one scenario each, or through standard input where none is.
fn run_all(rt: &HostRuntime) -> Result<(), Fault> {
    let mut named = env::args(rt)?.skip(1).peekable();
    if named.peek().is_none() {
        return run(rt, BufReader::new(rt.alloc(), rt.stdin())?);
    }
    for path in named {
        let file = File::open(rt, path.as_str()).map_err(|e| Fault::Unopened(path, e))?;
        run(rt, BufReader::new(rt.alloc(), file)?)?;
    }
    Ok(())
}

fn main(rt: HostRuntime) -> ExitCode {
    let Err(fault) = run_all(&rt) else {
        return ExitCode::SUCCESS;
    };
    let _ = match fault {
        Fault::Malformed(_) => println!(rt; "error: {fault}"),
        _ => eprintln!(rt; "pagebook: {fault}"),
    };
    ExitCode::FAILURE
}
