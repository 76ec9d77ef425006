//! `dm_jobs`: jobs that users of Data Matrix symbols wait for, to be timed.
//!
//! `dm_jobs JOB SEED ROUNDS` does so many rounds of a job, and prints a digest of all results, with how many calls and
//! records were answered and how many refused. The inputs are made from the seed, and no call is made twice with the
//! same. The job `each` does all jobs, one after another.
#![tactic(auto)]

mod cells;
mod chance;
mod devices;
mod digest;
mod failure;
mod jobs;
mod library;
mod message;
mod page;
mod texts;

use chance::Chance;
use digest::Digest;
use failure::Failure;
use jobs::limit::Places;
use jobs::{camera, labels, limit, scans, stores, stray, torn};
use library::Caller;
use std::alloc::Global;
use std::process::ExitCode;
use std::{env, io};

/// What is to be done.
#[derive(Clone, Copy)]
enum Job {
    Scans,
    Stores,
    Labels,
    Camera,
    Torn,
    Stray,
}

/// All jobs.
static EACH: [Job; 6] = [
    Job::Scans,
    Job::Stores,
    Job::Labels,
    Job::Camera,
    Job::Torn,
    Job::Stray,
];

/// Words, and the places of the jobs that they name.
static WORDS: [(&str, usize, usize); 7] = [
    ("scans", 0, 1),
    ("stores", 1, 2),
    ("labels", 2, 3),
    ("camera", 3, 4),
    ("torn", 4, 5),
    ("stray", 5, 6),
    ("each", 0, 6),
];

/// Gives the jobs that a word names.
fn jobs_of(word: &str) -> Option<&'static [Job]> {
    for (name, first, end) in &WORDS {
        if word == *name {
            return EACH.get(*first..*end);
        }
    }
    None
}

/// Does so many rounds of a job, and gives the digest of its results.
fn digest_of(alloc: Global, job: Job, seed: u32, rounds: u32) -> Result<Digest, Failure> {
    let mut chance = Chance::new(u64::from(seed));
    let mut digest = Digest::new();
    let mut caller = Caller::new();
    let largest = Places::of(144, 144);
    let middle = Places::of(52, 52);
    for round in 0..rounds {
        match job {
            Job::Scans => scans::round(alloc, &mut chance, &mut digest)?,
            Job::Stores => stores::round(alloc, &mut chance, &mut digest)?,
            Job::Labels => labels::round(&mut chance, &mut digest),
            Job::Camera => camera::round(&mut caller, &mut chance, &mut digest),
            Job::Torn => {
                torn::round(&mut caller, &mut chance, &mut digest);
                if round % 16 == 0 {
                    limit::round(&mut caller, &largest, &middle, &mut chance, &mut digest);
                }
            }
            Job::Stray => stray::round(alloc, &mut caller, &middle, &mut chance, &mut digest)?,
        }
    }
    Ok(digest)
}

/// Does what the words of the command line ask for.
fn do_words(rt: &HostRuntime, words: &[String]) -> Result<Digest, Failure> {
    let [_, job, seed, rounds] = words else {
        return Err(Failure::Usage);
    };
    let jobs = jobs_of(job.as_str()).ok_or(Failure::Usage)?;
    let seed = seed.as_str().parse::<u32>().or(Err(Failure::Usage))?;
    let rounds = rounds.as_str().parse::<u32>().or(Err(Failure::Usage))?;
    let mut all = Digest::new();
    for job in jobs {
        let digest = digest_of(rt.alloc(), *job, seed, rounds)?;
        all.add_all(&digest);
    }
    Ok(all)
}

fn main(rt: HostRuntime) -> io::Result<ExitCode> {
    let words: Vec<String> = env::args(&rt)?.collect(rt.alloc())?;
    match do_words(&rt, words.as_slice()) {
        Ok(digest) => {
            let Digest {
                state,
                answered,
                refused,
            } = digest;
            println!(rt; "{state:016x}, {answered} answered, {refused} refused")?;
            Ok(ExitCode::SUCCESS)
        }
        Err(failure) => {
            println!(rt; "{}", failure.words())?;
            Ok(ExitCode::FAILURE)
        }
    }
}
