// Runs the files of cases that a program's arguments name, and tells how many cases of each passed.
use crate::run::run_line;
use std::rt::{Env, Files};
use std::{env, fs, io};

// Every line of a file of cases: each that failed is told, and then how many passed. `most` is the longest token that is read
// as bytes, but for one that begins with a dot, and how far lines and cases are counted.
fn run_lines(rt: &impl Print, name: &str, file: &[u8], most: usize) -> io::Result<()> {
    // eight registers of 8,192 bytes; room for what a line hands in and expects, and for what its call writes: four
    // times the longest store
    let mut regs = [0; 65536];
    let mut room = [0; 262144];
    let mut out = [0; 262144];
    let mut passed = 0usize;
    let mut failed = 0usize;
    for (k, line) in file.split(|&b| b == b'\n').enumerate() {
        match run_line(line, &mut regs, &mut room, &mut out, most) {
            None => {}
            Some(true) if passed < most => passed += 1,
            Some(true) => {}
            Some(false) => {
                failed = failed.saturating_add(1);
                println!(rt; "{name}: line {} failed", (k + 1).min(most))?
            }
        }
    }
    // An empty file and a byte that fails are told no count.
    if failed < file.len() {
        println!(rt; "{name}: {passed} passed")?;
    }
    Ok(())
}

// A file that cannot be read is told on standard error.
fn run_file(
    rt: &(impl Files + Print + Eprint + AllocGlobal),
    name: &str,
    most: usize,
) -> io::Result<()> {
    match fs::read(rt, name) {
        Ok(file) => run_lines(rt, name, &file, most),
        Err(error) => eprintln!(rt; "{name}: {error}"),
    }
}

// Every file that an argument names.
pub fn run_arguments(rt: &(impl Env + Files + Print + Eprint + AllocGlobal)) -> io::Result<()> {
    run_arguments_within(rt, usize::MAX)
}

// The same; `most` is the longest token that is read as bytes, but for one that begins with a dot, and how far lines and cases are counted.
pub fn run_arguments_within(
    rt: &(impl Env + Files + Print + Eprint + AllocGlobal),
    most: usize,
) -> io::Result<()> {
    for name in env::args(rt)?.skip(1) {
        run_file(rt, name.as_str(), most)?;
    }
    Ok(())
}
