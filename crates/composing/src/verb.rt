// The commands of a job, by their first word in the text form and by their first byte.
ghost use Rattle.std.specs.Prelude.{◌≡◌};
ghost use Rattle.composing.specs.Commands.{verb_of};

// The bytes stand in crate jobs as well: to have them from there would make this crate build on a shelf.
#[derive(Clone, Copy)]
pub(crate) enum Verb {
    Declare = 0x40,
    Load = 0x41,
    Compare = 0x42,
    Ask = 0x43,
}

impl Verb {
    pub(crate) fn of(word: &[u8]) -> Option<Verb>
        ensures { result ≡ verb_of word.now }
    {
        match word {
            b"declare" => Some(Verb::Declare),
            b"load" => Some(Verb::Load),
            b"compare" => Some(Verb::Compare),
            b"ask" => Some(Verb::Ask),
            _ => None,
        }
    }
}
