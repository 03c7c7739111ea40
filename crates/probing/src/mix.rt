// How the kinds of keys spread their hashes.
ghost use Rattle.std.specs.Prelude.{◌≡◌};
ghost use Rattle.probing.specs.Mixing.{mixed};

// 32 well spread bits of x. A table takes the remainder by any number of slots, so every bit of the result has to depend
// on every bit of x: two products by odd numbers carry the low bits up, and the shift between them brings the high bits down.
pub(crate) fn mix(x: u64) -> u32
    ensures { result ≡ mixed x }
{
    let carried = x.wrapping_mul(0x9E37_79B9_7F4A_7C15);
    let folded = (carried ^ (carried >> 32)).wrapping_mul(0xD6E8_FEB8_6659_FD93);
    (folded >> 32) as u32
}
