//! Composes a list of plans: reads one a line on standard input, in which a tab stands for a line feed, and writes each with the binary of
//! the component that it composes under it, in hexadecimal, or with the line that says why the plan is refused. A line that begins with `;;` is a heading.
#![tactic(auto)]

use compose_replies::{Told, reply_to_plan};
use std::alloc::{AllocError, Global};
use std::io;

/// The plan that a line has.
fn plan_of(alloc: Global, line: &[u8]) -> Result<Vec<u8>, AllocError> {
    let mut plan = Vec::new(alloc);
    for byte in line {
        if *byte == b'\t' {
            plan.push(b'\n')?;
        } else {
            plan.push(*byte)?;
        }
    }
    Ok(plan)
}

/// What is answered for a plan.
fn answer(rt: &HostRuntime, line: &str) -> Result<String, AllocError> {
    let plan = plan_of(rt.alloc(), line.as_bytes())?;
    match reply_to_plan(rt.alloc(), plan.as_slice(), false)? {
        Told::Output(out) => String::from_utf8_lossy(rt.alloc(), out.as_slice()),
        Told::Refusal(line) => Ok(line),
    }
}

/// Whether a line has a plan: whether it is no heading.
fn is_plan(line: &str) -> bool {
    !line.starts_with(";;")
}

/// Writes the answer for a plan.
fn print_answer(rt: &HostRuntime, line: &str) -> Result<(), io::Error> {
    match answer(rt, line) {
        Ok(lines) => print!(rt; "{}", lines.as_str()),
        Err(_) => println!(rt; "NoMemory"),
    }
}

fn main(rt: HostRuntime) -> Result<(), io::Error> {
    for line in rt.lines(rt.alloc()) {
        let line = line?;
        println!(rt; "{}", line.as_str())?;
        if is_plan(line.as_str()) {
            print_answer(&rt, line.as_str())?;
        }
    }
    Ok(())
}
