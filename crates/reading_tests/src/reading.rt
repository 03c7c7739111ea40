// Reading, as the tests compare it.
use effects::EffectAlgebra;
use tape::read;

// What a tape answers at a request, or the number of its refusal and the place. By numbers, since those are the promise that tests
// are to hold; the names would hold no number.
pub(crate) fn told<A: EffectAlgebra>(
    facts: u8,
    tape: &[u8],
    request: u32,
) -> Result<u8, (u8, usize)> {
    read::<A>(facts, tape, request).map_err(|at| (at.refusal.number(), at.place))
}
