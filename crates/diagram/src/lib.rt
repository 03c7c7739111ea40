// Decision diagrams in slots that a caller lends: shared, ordered and reduced, each node once.
//
// `store` has the nodes, `codes` what their codes mean, `build` how diagrams are built, `witness` the search for the first
// request that breaks a question, and `entries` the tape rules over a store.
#![tactic(auto)]

ghost use Rattle.diagram.specs.Law.{Law};
ghost use Rattle.diagram.specs.StoreLaw.{StoreLaw};

mod build;
mod codes;
mod entries;
mod store;
mod witness;

pub use store::{Full, Store};

// What holds of the number of cofactors, whatever the functions. The contract is the theorem, and nothing is computed.
pub fn count_laws()
    ensures { Law }
{}

// What holds of every store. The contract is the theorem, and nothing is computed.
pub fn store_laws()
    ensures { StoreLaw }
{}
