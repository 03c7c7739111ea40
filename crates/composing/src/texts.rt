// From a text to a job.
ghost use Rattle.std.specs.Prelude.{◌≡◌, Ok, MatchResult};
ghost use Rattle.composing.specs.Text.{composed, Says};

use crate::commands::push_command;
use crate::error::ComposeError;
use crate::splitting::words;
use std::alloc::Global;

// The job of a text, one command a line.
pub fn compose(heap: Global, text: &[u8]) -> Result<Vec<u8>, ComposeError>
    ensures { MatchResult result (λ job. composed text.now ≡ Ok job.items) (λ error. Says error (composed text.now)) }
{
    let mut job = Vec::new(heap);
    for (i, line) in text.split(|b| *b == b'\n').enumerate() {
        let words = words(heap, line)?;
        push_command(&mut job, i + 1, &words)?;
    }
    Ok(job)
}
