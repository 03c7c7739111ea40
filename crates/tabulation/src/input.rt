// What an input asks for.
ghost use Rattle.std.specs.Prelude.{◌≤◌, Some, IfOk};

use std::error::Error;
use std::fmt;

// Which effects the tape is about.
#[derive(Clone, Copy, PartialEq, Eq, Debug)]
pub enum EffectSet {
    Four,
    Six,
}

// An input taken apart: how many facts there are, which effects, and the tape.
#[derive(Clone, Copy)]
pub struct Input<'a> {
    pub facts: u8,
    pub effects: EffectSet,
    pub tape: &'a [u8],
}

// Why an input is no input.
#[derive(Clone, Copy, PartialEq, Eq, Debug)]
pub enum BadInput {
    // fewer than the two bytes before the tape
    Short,
    // more than 65,535 bytes after them
    Long,
    // a first byte over 16
    Facts,
    // a second byte that is neither 4 nor 6
    Effects,
}

impl fmt::Display for BadInput {
    ghost use Rattle.tabulation.specs.Inputs.{complaint};

    ghost output = { λ bad. Some (complaint bad) };

    fn fmt<W: fmt::Write>(&self, f: &mut fmt::Formatter<W>) -> fmt::Result {
        f.write_str(match self {
            BadInput::Short => "the input is shorter than its two counts",
            BadInput::Long => "the input is longer than 65537 bytes",
            BadInput::Facts => "the first byte is not a fact count of 0 to 16",
            BadInput::Effects => "the second byte is not an effect count of 4 or 6",
        })
    }
}

impl Error for BadInput {}

impl TryFrom<u8> for EffectSet {
    type Error = BadInput;

    ghost use Rattle.tabulation.specs.Inputs.{HasCount};

    ghost try_from_gives = { HasCount };

    // The set with this many effects.
    fn try_from(count: u8) -> Result<Self, BadInput> {
        match count {
            4 => Ok(EffectSet::Four),
            6 => Ok(EffectSet::Six),
            _ => Err(BadInput::Effects),
        }
    }
}

impl<'a> Input<'a> {
    ghost use Rattle.tabulation.specs.Tables.{Parsed};

    // A byte for the facts, 0 to 16; a byte for the effects, 4 or 6; then the tape, of at most 65,535 bytes.
    pub fn parse(bytes: &'a [u8]) -> Result<Input<'a>, BadInput>
        ensures parsed { Parsed bytes.now result }
        ensures few { IfOk result (λ i. i.facts ≤ 16) }
    {
        let [facts, effects, tape @ ..] = bytes else {
            return Err(BadInput::Short);
        };
        if tape.len() > 65535 {
            return Err(BadInput::Long);
        }
        if *facts > 16 {
            return Err(BadInput::Facts);
        }
        Ok(Input {
            facts: *facts,
            effects: EffectSet::try_from(*effects)?,
            tape,
        })
    }
}
