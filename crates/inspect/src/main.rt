// Looks at deliveries without a register: prints what each one lists, or why it is refused.
#![tactic(auto)]

use anyhow::ensure;
use inspection::inspect;
use std::io::Read;
use std::{env, fs, io};

const HELP: &str = "inspect: tells what a delivery lists, or why it is refused

usage: inspect [FILE]...

Each FILE holds one delivery. Without a FILE the delivery is read from standard input.
Prints a line for each entry (number, kind, place and length of its body) and a closing count,
or 'delivery refused', the number of the reason and the entry at fault, if any:
  1  under 2 or over 65535 bytes, over 4095 entries, or no space for the table
  2  an entry has another kind, or a body not wholly after the table and inside the delivery
  3  a body shares a byte with an earlier one
Ends with status 1 where a FILE cannot be read.
";

fn read_input(rt: &HostRuntime) -> io::Result<Vec<u8>> {
    let mut bytes = Vec::new(rt.alloc());
    rt.stdin().read_to_end(&mut bytes)?;
    Ok(bytes)
}

fn show(rt: &HostRuntime, bytes: &[u8]) -> anyhow::Result<()> {
    rt.print(inspect(rt.alloc(), bytes)?.as_str())?;
    Ok(())
}

// False where the file cannot be read.
fn show_file(rt: &HostRuntime, path: &str) -> anyhow::Result<bool> {
    match fs::read(rt, path) {
        Ok(bytes) => {
            show(rt, bytes.as_slice())?;
            Ok(true)
        }
        Err(error) => {
            eprintln!(rt; "inspect: cannot read {path}: {error}")?;
            Ok(false)
        }
    }
}

// With several files, each one's text stands below its name.
fn show_files(rt: &HostRuntime, paths: &[String]) -> anyhow::Result<bool> {
    let mut all_read = true;
    for path in paths {
        if paths.len() > 1 {
            println!(rt; "{path}:")?;
        }
        all_read &= show_file(rt, path.as_str())?;
    }
    Ok(all_read)
}

fn main(rt: HostRuntime) -> anyhow::Result<()> {
    let paths: Vec<String> = env::args(&rt)?.skip(1).collect(rt.alloc())?;
    match paths.as_slice() {
        [] => show(&rt, read_input(&rt)?.as_slice())?,
        [first, ..] if first.as_str() == "--help" => rt.print(HELP)?,
        paths => ensure!(show_files(&rt, paths)?, "a file could not be read"),
    }
    Ok(())
}
