// How a line falls into words.
ghost use Rattle.std.specs.Prelude.{◌≡◌, IfOk};
ghost use Rattle.std.specs.Str.Lines.{strip_carriage_return};
ghost use Rattle.composing.specs.Pieces.{texts, is_blank, before_comment, words_of};

use std::alloc::{AllocError, Global};

fn is_blank(byte: u8) -> bool
    ensures { result ≡ is_blank byte }
{
    byte == b' ' || byte == b'\t'
}

fn without_return(line: &[u8]) -> &[u8]
    ensures { result.now ≡ strip_carriage_return line.now }
{
    line.strip_suffix(b"\r").unwrap_or(line)
}

fn without_comment(line: &[u8]) -> &[u8]
    ensures { result.now ≡ before_comment line.now }
{
    match line.iter().position(|b| *b == b'#') {
        Some(end) => &line[..end],
        None => line,
    }
}

// The words of a line, without its comment.
pub(crate) fn words<'a>(heap: Global, line: &'a [u8]) -> Result<Vec<&'a [u8]>, AllocError>
    ensures { IfOk result (λ v. texts v.items ≡ words_of line.now) }
{
    without_comment(without_return(line))
        .split(|b| is_blank(*b))
        .filter(|word| !word.is_empty())
        .collect(heap)
}
