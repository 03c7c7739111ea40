// Effects and what can be done with them: the interface of an effect algebra, two algebras, and
// the tables of codes that are read in their place where tapes are run.
#![tactic(auto)]

mod algebra;
mod decision;
mod four;
mod making;
mod six;
mod tables;

pub use algebra::EffectAlgebra;
pub use decision::Decision;
pub use four::FourEffect;
pub use making::{cell, effect_tables, question_tables};
pub use six::SixEffect;
pub use tables::{CodeTable, EffectTables, QuestionTables};
