//! Counts the rewritings that a run of `ucq` tries, which `ucq` itself doesn't print: for the words of such a run it
//! rewrites the input on one thread, and prints how many rows there are and how many rewritings were tried.
#![tactic(auto)]

ghost use Rattle.std.specs.Prelude.{◌<◌, ◌≤◌};
ghost use Rattle.ucq_terms.specs.declared.TheConstants.{ROWS};

mod counting;
mod faults;
mod reading;

use crate::counting::tally_of;
use crate::faults::{Fault, status_of, tell};
use crate::reading::input_of;
use std::io::ErrorKind;
use std::process::ExitCode;
use std::{env, io};
use ucq_reader::Input;
use ucq_terms::Problem;
use ucq_words::settings;

/// The words after the program's name.
fn words_of(rt: &HostRuntime) -> io::Result<Vec<String>> {
    let mut args = env::args(rt)?;
    let _ = args.next();
    Ok(args.collect(rt.alloc())?)
}

/// What the system's refusal of the words is here.
fn refused_words(error: &io::Error) -> Fault {
    match error.kind() {
        ErrorKind::OutOfMemory => Fault::Memory,
        _ => Fault::BadWords,
    }
}

/// Prints the tally of a problem.
fn print_tally(rt: &HostRuntime, problem: &Problem, budget: u32) -> Result<(), Fault>
    requires some { 0 < budget }
    requires small { budget ≤ ROWS }
{
    let tally = tally_of(rt.alloc(), problem, budget)?;
    println!(rt; "% rows {}\n% rewritings {}", tally.rows, tally.rewritings).map_err(
        |_| Fault::Unwritten,
    )
}

/// Prints the tally of each query that the words ask for, in order.
fn answer(rt: &HostRuntime) -> Result<(), Fault> {
    let words = words_of(rt).map_err(|error| refused_words(&error))?;
    let settings = settings(rt.alloc(), words.as_slice())?;
    let Input { rules, queries, .. } = input_of(rt, &settings.job)?;
    let mut rules = rules;
    for asked in queries {
        let problem = Problem::new(rules, asked.query);
        print_tally(rt, &problem, settings.budget)?;
        rules = problem.into_parts().0;
    }
    Ok(())
}

fn main(rt: HostRuntime) -> ExitCode {
    match answer(&rt) {
        Ok(()) => ExitCode::from(0),
        Err(fault) => {
            // The status tells the fault where its line can't be written.
            let _ = tell(&rt, &fault);
            ExitCode::from(status_of(&fault))
        }
    }
}

#[cfg(test)]
mod tests;
