// From a job's bytes to its calls.
ghost use Rattle.std.specs.Prelude.{IfOk};
ghost use Rattle.jobs.specs.Parsing.{Taken};

use crate::command::command;
use crate::taken::Job;
use std::alloc::{AllocError, Global};

// The most bytes that a job may have.
const LONGEST: usize = 65535;

// The calls up to the end of the job, or up to the first place where no job command begins.
pub fn parse<'a>(heap: Global, job: &'a [u8]) -> Result<Job<'a>, AllocError>
    ensures { IfOk result (λ j. Taken job.now j.calls.items j.bad) }
{
    let mut calls = Vec::new(heap);
    if job.len() > LONGEST {
        return Ok(Job {
            calls,
            bad: Some(0),
        });
    }
    let mut rest = job;
    while !rest.is_empty() {
        let Some((call, after)) = command(rest) else {
            let bad = Some(job.len() - rest.len());
            return Ok(Job { calls, bad });
        };
        calls.push(call)?;
        rest = after;
    }
    Ok(Job { calls, bad: None })
}
