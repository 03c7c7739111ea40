// From a job's bytes to its lines.
ghost use Rattle.std.specs.Prelude.{IfOk};
ghost use Rattle.jobs.specs.Collating.{Answers, Collated};

use crate::line::Line;
use crate::parsing::parse;
use crate::printing::line_of;
use effects::FourEffect;
use probing::Slot;
use probing::name::Name;
use probing::node::Node;
use probing::pair::Pair;
use shelf::{Answer, Call, run};
use std::alloc::{AllocError, Global};
use tape::Refusal;

// How many slots the shelf of a job has, and how many names it can take.
const SLOTS: usize = 2048;

const NAME_SLOTS: usize = 32;

// How many pairs a comparison can remember. More would not change an answer.
const SCRATCH_SLOTS: usize = 1024;

// The answers to calls on a new shelf.
fn answers_to(heap: Global, calls: &[Call]) -> Result<Vec<Answer>, AllocError>
    ensures { IfOk result (λ v. Answers calls.now v.items) }
{
    let mut nodes = vec![in heap; Slot::<Node>::default(); SLOTS]?;
    let mut names = vec![in heap; Slot::<Name>::default(); NAME_SLOTS]?;
    let mut scratch = vec![in heap; Slot::<Pair>::default(); SCRATCH_SLOTS]?;
    let mut log = vec![in heap; Answer::Unknown; calls.len()]?;
    run::<FourEffect>(0, &mut nodes, &mut names, calls, &mut scratch, &mut log);
    Ok(log)
}

// The lines that a job prints.
pub fn collate(heap: Global, job: &[u8]) -> Result<Vec<Line>, AllocError>
    ensures { IfOk result (λ v. Collated job.now v.items) }
{
    let job = parse(heap, job)?;
    let answers = answers_to(heap, &job.calls)?;
    let refused = job
        .bad
        .map(|place| Line::Refused(Refusal::BadJob.number(), place));
    answers
        .iter()
        .filter_map(|answer| line_of(*answer))
        .chain(refused)
        .collect(heap)
}
