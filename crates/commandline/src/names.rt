//! The files of the host that the words of a job name.
ghost use Rattle.std.specs.Prelude.{◌≡◌};
ghost use Rattle.commandline.specs.Names.{one_of, others_of, others_of_run, outputs_of};

use crate::jobs::{Job, Run};

/// The names of a job's files.
#[derive(Clone, Copy)]
pub struct Names<'a> {
    /// What it writes beside the image that it leaves, which has to be a file of its own: reports, records and traces,
    /// and what it takes out of an image.
    pub outputs: [Option<&'a str>; 5],
    /// What it reads, and the image that it leaves.
    pub others: [Option<&'a str>; 3],
}

// One output.
fn one<'a>(output: Option<&'a str>) -> [Option<&'a str>; 5]
    ensures { result ≡ one_of output.entry }
{
    [output, None, None, None, None]
}

// What a run reads, and the image that it leaves.
fn others_of_run<'a>(run: &Run<'a>) -> [Option<&'a str>; 3]
    ensures { result ≡ others_of_run run.now }
{
    [Some(run.image), Some(run.script), run.save]
}

/// The names of a job's files, of jobs with outputs that have to be files of their own; of others none.
pub fn names_of<'a>(job: &Job<'a>) -> Names<'a>
    ensures outputs { result.outputs ≡ outputs_of job.now }
    ensures others { result.others ≡ others_of job.now }
{
    match job {
        Job::Flat(words) => Names {
            outputs: one(words.telling.json),
            others: [Some(words.file), Some(words.script), None],
        },
        Job::Run(words) => Names {
            outputs: one(words.telling.json),
            others: others_of_run(words),
        },
        Job::Live(words) => Names {
            outputs: one(words.script),
            others: [Some(words.image), words.save, None],
        },
        Job::Get(words) => Names {
            outputs: one(words.out),
            others: [Some(words.image), None, None],
        },
        Job::Play(words) => Names {
            outputs: [words.run.telling.json, words.script, None, None, None],
            others: others_of_run(&words.run),
        },
        Job::Trace(words) => Names {
            outputs: [
                words.run.telling.json,
                words.text,
                words.jsonl,
                words.perfetto,
                words.commits,
            ],
            others: others_of_run(&words.run),
        },
        Job::Gdb(words) => Names {
            outputs: one(words.recorded),
            others: [Some(words.image), words.script, None],
        },
        _ => Names {
            outputs: one(None),
            others: [None, None, None],
        },
    }
}
