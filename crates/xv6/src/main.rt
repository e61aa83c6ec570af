//! The command line of the machine: does the job that the words name, on real files.
#![tactic(auto)]

mod real_files;

use commands::perform::perform;
use commands::{Job, explain, explain_words, explains, job, refuse};
use explanations::Noting;
use real_files::{RealFiles, Terminals};
use std::alloc::AllocError;
use std::io::{self, BufWriter, ErrorKind, IsTerminal, Write};
use std::process::ExitCode;

/// The status of a wrong command line.
const WRONG_WORDS: u8 = 2;

/// Does a job on real files, and says more of the last line where that is wanted and the job is not done.
fn do_job<W: Write, E: Write>(
    rt: &HostRuntime,
    job: &Job<'_>,
    is_explained: bool,
    stdout: &mut W,
    stderr: &mut E,
) -> Result<u8, AllocError> {
    let alloc = rt.alloc();
    let terminals = Terminals {
        is_output: rt.stdout().is_terminal(),
        is_error: rt.stderr().is_terminal(),
    };
    let mut files = RealFiles::new(rt, terminals);
    let mut noting = Noting::new(stderr);
    let status = perform(alloc, job, &mut files, stdout, &mut noting);
    if is_explained && status != 0 {
        let line = String::from_str(alloc, noting.line())?;
        explain(alloc, job, line.as_str(), &mut files, &mut noting)?;
    }
    Ok(status)
}

/// Does the job that the process's words name. Standard output is buffered, and written out before the line that says
/// how the job ended.
fn run(rt: &HostRuntime) -> Result<u8, AllocError> {
    let alloc = rt.alloc();
    let args = match std::env::args(rt) {
        Ok(args) => args,
        Err(error) if error.kind() == ErrorKind::InvalidData => {
            let _ = eprintln!(rt; "error: a word of the command line is not UTF-8");
            return Ok(WRONG_WORDS);
        }
        Err(_) => return Err(AllocError),
    };
    let mut kept = Vec::new(alloc);
    for word in args {
        kept.push(word)?;
    }
    let words: Vec<&str> = kept.iter().map(|word| word.as_str()).collect(alloc)?;
    let mut stdout = BufWriter::new(alloc, io::writer(rt)).map_err(|_| AllocError)?;
    let mut stderr = rt.stderr();
    let words = words.as_slice();
    match job(alloc, words) {
        Ok(job) => do_job(rt, &job, explains(words), &mut stdout, &mut stderr),
        Err(error) => {
            let status = refuse(&error, &mut stdout, &mut stderr);
            if explains(words) {
                explain_words(alloc, words, &mut stderr)?;
            }
            Ok(status)
        }
    }
}

fn main(rt: HostRuntime) -> ExitCode {
    match run(&rt) {
        Ok(status) => ExitCode::from(status),
        Err(_) => {
            let _ = eprintln!(rt; "no memory");
            ExitCode::FAILURE
        }
    }
}
