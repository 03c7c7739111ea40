// From the words of a line to the bytes of a job command.
ghost use Rattle.std.specs.Prelude.{◌≡◌};
ghost use Rattle.composing.specs.Numerals.{decimal_in};
ghost use Rattle.composing.specs.Pieces.{texts};
ghost use Rattle.composing.specs.Commands.{declare_job, load_job, compare_job, ask_job, command_of, Adds};

use crate::error::ComposeError;
use crate::numerals::{byte_in_hex, decimal, decimal_byte};
use crate::verb::Verb;

// The most bytes of a name.
const LONGEST_NAME: usize = 16;

fn compare(first: &[u8], second: &[u8], question: &[u8]) -> Option<[u8; 4]>
    ensures { result ≡ compare_job (decimal_in 255 first.now) (decimal_in 255 second.now) (decimal_in 255 question.now) }
{
    Some([
        Verb::Compare as u8,
        decimal_byte(first)?,
        decimal_byte(second)?,
        decimal_byte(question)?,
    ])
}

fn ask(policy: &[u8], request: &[u8]) -> Option<[u8; 6]>
    ensures { result ≡ ask_job (decimal_in 255 policy.now) (decimal_in 4294967295 request.now) }
{
    let policy = decimal_byte(policy)?;
    let [a, b, c, d] = decimal(request)?.to_le_bytes();
    Some([Verb::Ask as u8, policy, a, b, c, d])
}

// Adds the declare of a line to a job. So do the other ones with what they are given. Job and line stay two parameters: a type
// for the two would have nothing to say of them.
fn push_declare(job: &mut Vec<u8>, line: usize, name: &[u8]) -> Result<(), ComposeError>
    ensures { Adds line (declare_job name.now) job.old.items result job.new.items }
{
    if name.len() > LONGEST_NAME {
        return Err(ComposeError::Unreadable(line));
    }
    job.extend_from_slice(&[Verb::Declare as u8, name.len() as u8])?;
    job.extend_from_slice(name)?;
    job.resize(job.len() + LONGEST_NAME - name.len(), 0)?;
    Ok(())
}

fn push_load(job: &mut Vec<u8>, line: usize, words: &[&[u8]]) -> Result<(), ComposeError>
    ensures { Adds line (load_job (texts words.now)) job.old.items result job.new.items }
{
    let unreadable = ComposeError::Unreadable(line);
    let Ok(length) = u16::try_from(words.len()) else {
        return Err(unreadable);
    };
    let [low, high] = length.to_le_bytes();
    job.extend_from_slice(&[Verb::Load as u8, low, high])?;
    for word in words {
        job.push(byte_in_hex(word).ok_or(unreadable)?)?;
    }
    Ok(())
}

// Adds the command of a line's words to a job; no words add nothing.
pub(crate) fn push_command(
    job: &mut Vec<u8>,
    line: usize,
    words: &[&[u8]],
) -> Result<(), ComposeError>
    ensures { Adds line (command_of (texts words.now)) job.old.items result job.new.items }
{
    let unreadable = ComposeError::Unreadable(line);
    let [word, words @ ..] = words else {
        return Ok(());
    };
    match (Verb::of(word).ok_or(unreadable)?, words) {
        (Verb::Declare, [name]) => push_declare(job, line, name),
        (Verb::Load, tape) => push_load(job, line, tape),
        (Verb::Compare, [first, second, question]) => {
            job.extend_from_slice(&compare(first, second, question).ok_or(unreadable)?)?;
            Ok(())
        }
        (Verb::Ask, [policy, request]) => {
            job.extend_from_slice(&ask(policy, request).ok_or(unreadable)?)?;
            Ok(())
        }
        _ => Err(unreadable),
    }
}
