// From answers to lines, and how a line is written.
ghost use Rattle.std.specs.Prelude.{◌≡◌, Some};
ghost use Rattle.jobs.specs.Lines.{line_of, printed};

use crate::line::Line;
use shelf::Answer;
use std::fmt;

// The line of an answer, if it is one that a job command leads to.
pub fn line_of(answer: Answer) -> Option<Line>
    ensures { result ≡ line_of answer }
{
    match answer {
        Answer::Fact(fact) => Some(Line::Declared(fact)),
        Answer::Loaded(policy, held) => Some(Line::Loaded(policy, held)),
        Answer::Kept => Some(Line::Kept),
        Answer::Witness(request) => Some(Line::Witness(request)),
        Answer::Code(code) => Some(Line::Code(code)),
        Answer::Refused(refusal) => Some(Line::Refused(refusal.number(), 0)),
        Answer::RefusedThere(refused) => {
            Some(Line::Refused(refused.refusal.number(), refused.place))
        }
        _ => None,
    }
}

impl fmt::Display for Line {
    ghost output = { λ line. Some (printed line) };

    fn fmt<W: fmt::Write>(&self, f: &mut fmt::Formatter<W>) -> fmt::Result {
        match *self {
            Line::Declared(fact) => write!(f, "D {fact}"),
            Line::Loaded(policy, held) => write!(f, "L {policy} {held}"),
            Line::Kept => write!(f, "C kept"),
            Line::Witness(request) => write!(f, "C {request}"),
            Line::Code(code) => write!(f, "A {code}"),
            Line::Refused(number, place) => write!(f, "R {number} {place}"),
        }
    }
}
