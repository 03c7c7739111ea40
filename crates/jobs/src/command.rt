// One job command.
ghost use Rattle.jobs.specs.Commands.{Begins};

use probing::name::Name;
use shelf::Call;

// The first bytes of job commands: constants and no enum, since patterns over the bytes name them.
const DECLARE: u8 = 0x40;

const LOAD: u8 = 0x41;

const COMPARE: u8 = 0x42;

const ASK: u8 = 0x43;

// The call that the bytes begin with, and the bytes after it.
pub(crate) fn command<'a>(bytes: &'a [u8]) -> Option<(Call<'a>, &'a [u8])>
    ensures { Begins bytes.now result }
{
    match *bytes {
        [DECLARE, len, ref rest @ ..] => {
            let (name, rest) = rest.split_first_chunk::<16>()?;
            Some((Call::Declare(Name { len, bytes: *name }), rest))
        }
        [LOAD, low, high, ref rest @ ..] => {
            let size = u16::from_le_bytes([low, high]);
            let (tape, rest) = rest.split_at_checked(usize::from(size))?;
            Some((Call::Load(tape), rest))
        }
        [COMPARE, first, second, question, ref rest @ ..] => {
            Some((Call::Compare(first, second, question), rest))
        }
        [ASK, policy, a, b, c, d, ref rest @ ..] => {
            let request = u32::from_le_bytes([a, b, c, d]);
            Some((Call::Ask(policy, request), rest))
        }
        _ => None,
    }
}
