// How bytes spell commands, and what a command is by itself.
ghost use Rattle.std.specs.Prelude.{◌≡◌, ◌^◌, ◌<◌, ◌≤◌, length, IfOk, nat_le};
ghost use Rattle.tape.specs.Tape.{decoded, takes, leaves as leaves_kind, is_end};

use crate::command::{Command, Kind};
use crate::refusal::Refusal;

// Whether the mask has a fact that is not among the first ones.
pub fn beyond(facts: u8, mask: u32) -> bool
    ensures { result ≡ nat_le (2 ^ facts) mask }
{
    facts < 32 && mask >= 1 << facts
}

impl Command {
    // The command that the bytes begin with, and how many it takes.
    pub fn decode(bytes: &[u8]) -> Result<(Command, usize), Refusal>
        ensures said { result ≡ decoded bytes.now }
        ensures some { IfOk result (λ d. 0 < d.1) }
        ensures within { IfOk result (λ d. d.1 ≤ length bytes.now) }
    {
        // by the first byte before the length of the rest, which most commands do not ask for
        let [byte, operand @ ..] = bytes else {
            return Err(Refusal::CutOff);
        };
        match *byte {
            0x01 => match operand {
                [fact, ..] => Ok((Command::Has(*fact), 2)),
                [] => Err(Refusal::CutOff),
            },
            0x02 => match operand {
                [a, b, c, d, ..] => Ok((Command::Any(u32::from_le_bytes([*a, *b, *c, *d])), 5)),
                _ => Err(Refusal::CutOff),
            },
            0x03 => match operand {
                [a, b, c, d, ..] => Ok((Command::All(u32::from_le_bytes([*a, *b, *c, *d])), 5)),
                _ => Err(Refusal::CutOff),
            },
            0x04 => Ok((Command::Not, 1)),
            0x05 => Ok((Command::And, 1)),
            0x06 => Ok((Command::Or, 1)),
            0x10 => match operand {
                [code, ..] => Ok((Command::State(*code), 2)),
                [] => Err(Refusal::CutOff),
            },
            0x11 => Ok((Command::Scope, 1)),
            0x12 => Ok((Command::Fail, 1)),
            0x13 => match operand {
                [combiner, ..] => Ok((Command::Join(*combiner), 2)),
                [] => Err(Refusal::CutOff),
            },
            0x1F => Ok((Command::End, 1)),
            _ => Err(Refusal::UnknownByte),
        }
    }

    // How many entries the command takes.
    pub(crate) fn taken(self) -> usize
        ensures { result ≡ length (takes self) }
    {
        match self {
            Command::Has(_) | Command::Any(_) | Command::All(_) | Command::State(_) => 0,
            Command::Not | Command::End => 1,
            Command::And | Command::Or | Command::Scope | Command::Fail | Command::Join(_) => 2,
        }
    }

    // The kind of the entry that the command leaves.
    pub(crate) fn leaves(self) -> Kind
        ensures { result ≡ leaves_kind self }
    {
        match self {
            Command::Has(_)
            | Command::Any(_)
            | Command::All(_)
            | Command::Not
            | Command::And
            | Command::Or => Kind::Condition,
            Command::State(_) | Command::Scope | Command::Fail | Command::Join(_) | Command::End =>
                Kind::Policy,
        }
    }

    pub(crate) fn ends(self) -> bool
        ensures { result ≡ is_end self }
    {
        matches!(self, Command::End)
    }
}
