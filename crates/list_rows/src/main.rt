//! Lists the references of a list of component binaries: reads one a line on standard input, in hexadecimal, and writes each with its
//! listing and with the line on its order under it. Each is read as definitions with their fields as well, and where these have another
//! listing or order, a line says so.
#![tactic(auto)]

ghost use Rattle.std.specs.Prelude.{◌≤◌, length};
ghost use Rattle.comp_wire.specs.Read.{Reads};
ghost use Rattle.item_tree.specs.Model.{component_of};

use binary_inputs::Told;
use comp_list::list;
use comp_order::order;
use item_read::read;
use item_tree::Tree;
use list_lines::{list_lines, order_line};
use list_replies::{Ask, reply_to_binary};
use std::alloc::{AllocError, Global};
use std::io;

/// What is asked of a binary, or why it is refused.
fn answer(rt: &HostRuntime, line: &str, ask: Ask) -> Result<String, AllocError> {
    match reply_to_binary(rt.alloc(), line.as_bytes(), false, ask)? {
        Told::Output(lines) => Ok(lines),
        Told::Refusal(line) => Ok(line),
    }
}

/// What is asked of the tree of bytes.
fn answer_of_tree(
    alloc: Global,
    bytes: &[u8],
    tree: &Tree<'_>,
    ask: Ask,
) -> Result<String, AllocError>
    requires small { length bytes.now ≤ 8388608 }
    requires read { Reads bytes.now (component_of tree.now) }
{
    let _bytes = bytes;
    match ask {
        Ask::List => match list(alloc, tree) {
            Ok(lines) => list_lines(alloc, lines.as_slice()),
            Err(_) => Err(AllocError),
        },
        Ask::Order => order_line(alloc, order(tree)),
    }
}

/// Whether the definitions of a binary with their fields, if it is read, have this answer.
fn answers_alike(alloc: Global, line: &str, ask: Ask, told: &str) -> bool {
    let Ok(decoded) = hex::decode(alloc, line) else {
        return true;
    };
    let bytes = decoded.as_slice();
    let Ok(tree) = read(alloc, bytes) else {
        return true;
    };
    match answer_of_tree(alloc, bytes, &tree, ask) {
        Ok(lines) => lines.as_str() == told,
        Err(_) => false,
    }
}

/// Writes the answer for a binary.
fn print_answer(rt: &HostRuntime, line: &str, ask: Ask) -> Result<(), io::Error> {
    match answer(rt, line, ask) {
        Ok(lines) => {
            print!(rt; "{}", lines.as_str())?;
            if !answers_alike(rt.alloc(), line, ask, lines.as_str()) {
                println!(rt; "by fields another")?;
            }
            Ok(())
        }
        Err(_) => println!(rt; "NoMemory"),
    }
}

/// Whether a line is a binary: neither empty nor a heading, which begins with `;;`.
fn is_binary(line: &str) -> bool {
    !line.is_empty() && !line.starts_with(";;")
}

fn main(rt: HostRuntime) -> Result<(), io::Error> {
    for line in rt.lines(rt.alloc()) {
        let line = line?;
        println!(rt; "{}", line.as_str())?;
        if is_binary(line.as_str()) {
            print_answer(&rt, line.as_str(), Ask::List)?;
            print_answer(&rt, line.as_str(), Ask::Order)?;
        }
    }
    Ok(())
}
