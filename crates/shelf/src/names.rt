// Names: declare and find.
ghost use Rattle.std.specs.Prelude.{◌≡◌};
ghost use Rattle.effects.specs.Codes.{Codes, QuestionCodes};
ghost use Rattle.shelf.specs.Names.{name_byte, good_name};
ghost use Rattle.shelf.specs.Catalogue.{Catalogue};
ghost use Rattle.shelf.specs.Calls.{declare_answer, find_answer, after_declare};
ghost use Rattle.shelf.specs.Stands.{Stands, Lent, Moved};

use crate::shelf::Shelf;
use probing::name::Name;
use tape::Refusal;

// Whether a name may have this byte.
fn is_name_byte(b: u8) -> bool
    ensures { result ≡ name_byte b }
{
    b.is_ascii_alphanumeric() || b == b'-' || b == b'.'
}

// Whether a name is good: it has 1 to 16 bytes, all of them ones that a name may have.
pub fn is_good(name: &Name) -> bool
    ensures { result ≡ good_name name.now }
{
    (1..=16).contains(&name.len)
        && name.bytes[..name.len as usize]
            .iter()
            .all(|b| is_name_byte(*b))
}

impl Shelf<'_> {
    // The fact of a declared name, if it is one.
    pub fn find(&self, name: &Name) -> Option<u8>
        ensures { (K : Codes) (Q : QuestionCodes) (c : Catalogue) → Stands K Q self.now c → result ≡ find_answer c name.now }
    {
        if !is_good(name) {
            return None;
        }
        let number = self.names.find(name)?;
        Some(number as u8)
    }

    // The fact of a name: a new one gets the next number, from 0, where there is a slot.
    pub fn declare(&mut self, name: &Name) -> Result<u8, Refusal>
        ensures lent { Lent self.old self.new }
        ensures moves { (K : Codes) (Q : QuestionCodes) (c : Catalogue) → Stands K Q self.old c → (result ≡ declare_answer c name.now) × Moved K Q self.old self.new c (after_declare c name.now) }
    {
        if !is_good(name) {
            return Err(Refusal::BadName);
        }
        if let Some(fact) = self.find(name) {
            return Ok(fact);
        }
        let number = self.names.insert(*name).ok_or(Refusal::NamesFull)?;
        Ok(number as u8)
    }
}
