// The law at an algebra comes by the interface alone: none of these has a proof file.
ghost use Rattle.std.specs.Prelude.{length, take};
ghost use Rattle.effects.specs.Four.{four, four_questions};
ghost use Rattle.effects.specs.Six.{six, six_questions};
ghost use Rattle.shelf.specs.Law.{Lawful};

use effects::{FourEffect, SixEffect};
use probing::Slot;
use probing::name::Name;
use probing::node::Node;
use probing::pair::Pair;
use shelf::{Answer, Call, run};

pub fn run_four(
    number: u32,
    nodes: &mut [Slot<Node>],
    names: &mut [Slot<Name>],
    calls: &[Call],
    scratch: &mut [Slot<Pair>],
    log: &mut [Answer],
) -> usize
    ensures { Lawful four four_questions number (length nodes.old) (length names.old) (take result calls.now) (take result log.new) }
{
    run::<FourEffect>(number, nodes, names, calls, scratch, log)
}

pub fn run_six(
    number: u32,
    nodes: &mut [Slot<Node>],
    names: &mut [Slot<Name>],
    calls: &[Call],
    scratch: &mut [Slot<Pair>],
    log: &mut [Answer],
) -> usize
    ensures { Lawful six six_questions number (length nodes.old) (length names.old) (take result calls.now) (take result log.new) }
{
    run::<SixEffect>(number, nodes, names, calls, scratch, log)
}
