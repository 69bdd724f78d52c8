// Runs worked examples and edges: reads each line of a table, and compares what is read with what is expected.
#![tactic(auto)]

mod answers;
mod numberings;
mod readings;
mod tables;

use answers::answer;
use std::{env, fmt, fs};
use tables::Example;

// How many examples there are, and how many of them agree.
#[derive(Clone, Copy, Default)]
struct Tally {
    examples: u64,
    agreeing: u64,
}

impl Tally {
    fn count(&mut self, agrees: bool) {
        self.examples = self.examples.saturating_add(1);
        self.agreeing = self.agreeing.saturating_add(u64::from(agrees));
    }
}

impl fmt::Display for Tally {
    fn fmt<W: fmt::Write>(&self, f: &mut fmt::Formatter<W>) -> fmt::Result {
        write!(f, "{} examples, {} agree", self.examples, self.agreeing)
    }
}

// Prints what was read of one example, and counts whether that was expected.
fn run_example(rt: &HostRuntime, example: &Example, tally: &mut Tally) -> anyhow::Result<()> {
    let kind = example.kind;
    let shown = example.shown;
    let expected = example.expected;
    let read = format!(in rt.alloc(); "{}", answer(rt.alloc(), kind, example.texts())?)?;
    let agrees = read.as_str() == expected;
    tally.count(agrees);
    let verdict = if agrees { "agrees" } else { "DIFFERS" };
    println!(rt; "{verdict}: {kind} \"{shown}\" is {read}, expected {expected}")?;
    Ok(())
}

// Runs the examples of a table, and prints its other lines as they stand.
fn run_table(rt: &HostRuntime, text: &str, tally: &mut Tally) -> anyhow::Result<()> {
    for line in text.lines() {
        match Example::read(rt.alloc(), line)? {
            Some(example) => run_example(rt, &example, tally)?,
            None => println!(rt; "{line}")?,
        }
    }
    Ok(())
}

fn main(rt: HostRuntime) -> anyhow::Result<()> {
    let mut tally = Tally::default();
    for path in env::args(&rt)?.skip(1) {
        let text = fs::read_to_string(&rt, path.as_str())?;
        run_table(&rt, text.as_str(), &mut tally)?;
    }
    println!(rt; "{tally}")?;
    Ok(())
}
