// Holds both number kinds to cases made elsewhere: says how many of each operation agree.
#![tactic(auto)]

ghost use Rattle.std.specs.Prelude.{Decides};
ghost use Rattle.vectors.specs.Counts.{Asks, Counts, GivesWanted};

mod answer;
mod case;
mod unread;

use answer::{Operation, answer_of};
use case::{Case, finite};
use kinds::{NumberKind, Single, Whole};
use std::alloc::{AllocError, Global};
use std::fs;

const SINGLES: &str = "binary32.txt";

const WHOLES: [&str; 2] = ["whole.txt", "rounded.txt"];

// How many cases there are, and in how many the kind gives what is wanted.
#[derive(Drop)]
struct Tally {
    agree: usize,
    all: usize,
}

// Whether the case is one of the operation.
fn asks(case: &Case, operation: Operation) -> bool
    ensures { Decides result (Asks operation case.now) }
{
    case.operation == operation
}

// Whether the kind gives what is wanted.
fn agrees<K: NumberKind>(case: &Case) -> bool
    ensures { Decides result (GivesWanted K.kind case.now) }
{
    answer_of::<K>(case.operation, case.a, case.b) == case.wanted
}

// The cases that a text's lines spell, each as `adapt` has it.
fn cases_of<F: Fn(Case) -> Case>(
    alloc: Global,
    text: &str,
    adapt: F,
) -> Result<Vec<Case>, AllocError>
    requires { (f : _) (case : _) → F.FnMut.pre f case }
{
    text.lines()
        .filter_map(|line| line.parse::<Case>().ok())
        .map(adapt)
        .collect(alloc)
}

fn tally_of<K: NumberKind>(cases: &[Case], operation: Operation) -> Tally
    ensures agree { Counts (λ c. Asks operation c × GivesWanted K.kind c) cases.now result.agree }
    ensures all { Counts (Asks operation) cases.now result.all }
{
    Tally {
        agree: cases
            .iter()
            .filter(|case| asks(case, operation) && agrees::<K>(case))
            .count(),
        all: cases.iter().filter(|case| asks(case, operation)).count(),
    }
}

// How many lines are no case.
fn lines_unread(text: &str) -> usize {
    text.lines()
        .filter(|line| line.parse::<Case>().is_err())
        .count()
}

// Says of each operation that a file's cases ask for in how many of them the kind agrees, and how many lines are no case.
fn tell<K: NumberKind>(
    rt: HostRuntime,
    file: &str,
    text: &str,
    cases: &[Case],
) -> anyhow::Result<()> {
    for operation in Operation::ALL {
        let tally = tally_of::<K>(cases, operation);
        if tally.all > 0 {
            println!(rt; "{file} {operation}: {} of {}", tally.agree, tally.all)?;
        }
    }
    println!(rt; "{file} not read: {}", lines_unread(text))?;
    Ok(())
}

fn main(rt: HostRuntime) -> anyhow::Result<()> {
    let alloc = rt.alloc();
    let published = fs::read_to_string(&rt, SINGLES)?;
    let singles = cases_of(alloc, published.as_str(), finite)?;
    tell::<Single>(rt, SINGLES, published.as_str(), singles.as_slice())?;
    for file in WHOLES {
        let text = fs::read_to_string(&rt, file)?;
        let wholes = cases_of(alloc, text.as_str(), |case| case)?;
        tell::<Whole>(rt, file, text.as_str(), wholes.as_slice())?;
    }
    Ok(())
}
