//! Relates pairs of geometries, to compare the matrices with others and to measure the time.
//!
//! Each line of standard input holds two well-known texts with a tab between; for each the program
//! writes the nine letters of the matrix. With the argument `times`, a name and a tab precede the
//! texts; the program writes the name, the letters, and the nanoseconds to relate the two once, by
//! the clock and of the processor, and of the processor where both are prepared before, with tabs
//! between. Reading the texts isn't measured. Coordinates
//! are integers, and rings are read by the even-odd rule.
#![tactic(auto)]

mod cost;
mod pair;

use crate::cost::cost_of;
use crate::pair::Pair;
use std::env;
use std::io::{self, BufRead, BufReader};
use std::rt::{Clock, Env};
use std::time::CpuClock;

/// Writes the nine letters of the matrix.
fn print_matrix(rt: &(impl Print + AllocGlobal), pair: &Pair) -> io::Result<()> {
    let letters = pair.letters(rt.alloc())?;
    let [a, b, c, d, e, f, g, h, i] = letters.map(char::from);
    print!(rt; "{a}{b}{c}{d}{e}{f}{g}{h}{i}")
}

/// Writes the matrix of the pair on a line.
fn relate_line(rt: &(impl Print + AllocGlobal), line: &str) -> io::Result<()> {
    match Pair::read(rt.alloc(), line)? {
        Some(pair) => print_matrix(rt, &pair)?,
        None => rt.print("not a pair of geometry texts")?,
    }
    rt.println("")
}

/// Writes the name on a line, the matrix of its pair, and the time to relate it.
fn time_line(rt: &(impl Print + AllocGlobal + Clock + CpuClock), line: &str) -> io::Result<()> {
    let (name, texts) = line.split_once('\t').unwrap_or((line, ""));
    rt.print(name)?;
    rt.print("\t")?;
    let Some(pair) = Pair::read(rt.alloc(), texts)? else {
        return rt.println("not a pair of geometry texts");
    };
    print_matrix(rt, &pair)?;
    let cost = cost_of(rt, &pair)?;
    let clock = cost.clock;
    let processor = cost.processor;
    let prepared = cost_of(rt, &pair.prepared(rt.alloc())?)?.processor;
    println!(rt; "\t{clock}\t{processor}\t{prepared}")
}

/// Whether an argument is `times`.
fn is_timed(rt: &(impl Env + AllocGlobal)) -> io::Result<bool> {
    let mut is_timed = false;
    for word in env::args(rt)? {
        is_timed = is_timed || word.as_str() == "times";
    }
    Ok(is_timed)
}

fn main(rt: HostRuntime) -> io::Result<()> {
    let is_timed = is_timed(&rt)?;
    for line in BufReader::new(rt.alloc(), rt.reader())?.lines(rt.alloc()) {
        let line = line?;
        if is_timed {
            time_line(&rt, line.as_str())?;
        } else {
            relate_line(&rt, line.as_str())?;
        }
    }
    Ok(())
}
