// A client of the shelf: it offers a draft to a shelf that did not give it out, gives one up, files another, and prints what
// came of that.
#![tactic(auto)]

ghost use Rattle.std.specs.Prelude.{IfOk};
ghost use Rattle.draft_client.specs.Owning.{Owns};

use effects::FourEffect;
use probing::Slot;
use probing::name::Name;
use probing::node::Node;
use shelf::{Draft, Shelf};
use tape::Refusal;

const FACULTY: Name = Name {
    len: 7,
    bytes: *b"faculty\0\0\0\0\0\0\0\0\0",
};

// Gives a draft up. A shelf takes back its open draft and no other, and one that is handed back could not be let go: so
// whoever calls this shows that it is the open one. (Tried: a struct of shelf and draft that knows it. But what such a struct says of
// a shelf that it borrows has to hold of the shelf that it leaves, too, whose draft is gone.)
fn give_up(shelf: &mut Shelf, draft: Draft)
    requires { Owns shelf.old draft }
{
    shelf.abandon(draft).unwrap();
}

fn begin(shelf: &mut Shelf) -> Result<Draft, Refusal>
    ensures { IfOk result (λ d. Owns shelf.new d) }
{
    shelf.open()
}

// Feeds a command to a draft, or gives the draft up where the command is refused.
fn write(shelf: &mut Shelf, draft: Draft, command: &[u8]) -> Result<Draft, Refusal>
    requires { Owns shelf.old draft }
    ensures { IfOk result (λ d. Owns shelf.new d) }
{
    match shelf.feed(draft, command) {
        Ok((_, draft)) => Ok(draft),
        Err((refusal, draft)) => {
            give_up(shelf, draft);
            Err(refusal)
        }
    }
}

// Files a draft, or gives it up where it is not ended.
fn finish(shelf: &mut Shelf, draft: Draft) -> Result<u8, Refusal>
    requires { Owns shelf.old draft }
{
    match shelf.file(draft) {
        Ok(policy) => Ok(policy),
        Err((refusal, draft)) => {
            give_up(shelf, draft);
            Err(refusal)
        }
    }
}

// Offers a draft to a shelf that did not give it out, which hands it back, and then gives it up where it belongs. Answers
// the refusal, if it was one.
fn offer_elsewhere(home: &mut Shelf, other: &mut Shelf) -> Result<Option<Refusal>, Refusal> {
    let draft = begin(home)?;
    match other.feed(draft, &[0x10, 1]) {
        Ok((_, draft)) => {
            give_up(home, draft);
            Ok(None)
        }
        Err((refusal, draft)) => {
            give_up(home, draft);
            Ok(Some(refusal))
        }
    }
}

// Files the policy that permits what has fact 0, after a start that is given up.
fn permit_faculty(shelf: &mut Shelf) -> Result<u8, Refusal> {
    let draft = begin(shelf)?;
    let draft = write(shelf, draft, &[0x01, 0])?;
    give_up(shelf, draft);
    let draft = begin(shelf)?;
    let draft = write(shelf, draft, &[0x10, 1])?;
    let draft = write(shelf, draft, &[0x01, 0])?;
    let draft = write(shelf, draft, &[0x11])?;
    let draft = write(shelf, draft, &[0x1F])?;
    let policy = finish(shelf, draft)?;
    Ok(policy)
}

fn print_policy(rt: &HostRuntime, shelf: &Shelf, policy: u8) -> anyhow::Result<()> {
    let held = shelf.held();
    println!(rt; "policy {policy}, held {held}")?;
    match shelf.ask(policy, 1) {
        Ok(code) => println!(rt; "effect {code} with faculty")?,
        Err(refusal) => println!(rt; "refused by {}", refusal.number())?,
    }
    Ok(())
}

fn run(rt: &HostRuntime) -> anyhow::Result<()> {
    let mut nodes = [Slot::default(); 4];
    let mut names = [Slot::default(); 1];
    let mut shelf = Shelf::make::<FourEffect>(7, &mut nodes, &mut names);
    let mut no_nodes = [Slot::default(); 0];
    let mut no_names = [Slot::default(); 0];
    let mut other = Shelf::make::<FourEffect>(8, &mut no_nodes, &mut no_names);
    if let Ok(Some(refusal)) = offer_elsewhere(&mut shelf, &mut other) {
        println!(rt; "elsewhere refused by {}", refusal.number())?;
    }
    let _ = shelf.declare(&FACULTY);
    match permit_faculty(&mut shelf) {
        Ok(policy) => print_policy(rt, &shelf, policy),
        Err(refusal) => {
            println!(rt; "refused by {}", refusal.number())?;
            Ok(())
        }
    }
}

fn main(rt: HostRuntime) -> anyhow::Result<()> {
    run(&rt)
}
