// Names as keys.
ghost use Rattle.std.specs.Prelude.{◌≡◌, refl};
ghost use Rattle.std.specs.Cmp.{decided, on_equiv, partial_equiv_from_equiv};
ghost use Rattle.std.specs.Str.{bytes_eq};
ghost use Rattle.std.proofs.Common.{sym, ◌∙◌, ap};
ghost use Rattle.probing.specs.Kinds.{text, fold_byte, name_same, name_hashed, folded};
ghost use Rattle.std.proofs.lemmas.Slice.Eq.{bytes_eq-Decides};
ghost use Rattle.probing.specs.Mixing.{mixed, gathered};

use crate::Key;
use crate::mix::mix;

// A name: its first bytes, as many as its length says and at most sixteen. What the others are takes part in nothing,
// and nor does what a length says beyond sixteen.
#[derive(Clone, Copy, Debug, Default)]
pub struct Name {
    pub len: u8,
    pub bytes: [u8; 16],
}

impl Name {
    // The bytes that take part.
    fn text(&self) -> &[u8]
        ensures { result.now ≡ text self.now }
    {
        let n = (self.len as usize).min(16);
        &self.bytes[0..n]
    }
}

// The byte that stands for b where names are compared and hashed: b itself, so that letters in another case are other letters.
fn fold_byte(b: u8) -> u8
    ensures { result ≡ fold_byte b }
{
    b
}

impl PartialEq for Name {
    ghost eq = { name_same };

    ghost laws = { partial_equiv_from_equiv (on_equiv folded (decided bytes_eq bytes_eq-Decides)) };

    // By the lengths, and then byte by byte and not by `==` of slices, so that which letters are one stands in `fold_byte` alone.
    // A loop over the places: matching both slices at every byte costs a quarter more, and more still where the lengths differ.
    fn eq(&self, other: &Name) -> bool {
        let mine = self.text();
        let theirs = other.text();
        if mine.len() != theirs.len() {
            return false;
        }
        for i in 0..mine.len() {
            if fold_byte(mine[i]) != fold_byte(theirs[i]) {
                return false;
            }
        }
        true
    }
}

impl Eq for Name {
    ghost laws = { on_equiv folded (decided bytes_eq bytes_eq-Decides) };
}

impl Key for Name {
    ghost same = { name_same };

    ghost hashed = { name_hashed };

    ghost reflexive = { λ x. (bytes_eq-Decides (folded x) (folded x)).1 refl };

    ghost symmetric = { λ x y e. (bytes_eq-Decides (folded y) (folded x)).1 (sym ((bytes_eq-Decides (folded x) (folded y)).0 e)) };

    ghost transitive = { λ x y z e f. (bytes_eq-Decides (folded x) (folded z)).1 ((bytes_eq-Decides (folded x) (folded y)).0 e ∙ (bytes_eq-Decides (folded y) (folded z)).0 f) };

    ghost even = { λ x y e. ap (λ t. mixed (gathered 0xCBF29CE484222325 t)) ((bytes_eq-Decides (folded x) (folded y)).0 e) };

    fn same_as(&self, other: &Name) -> bool {
        self == other
    }

    fn hash(&self) -> u32 {
        let mut h = 0xCBF2_9CE4_8422_2325u64;
        for b in self.text() {
            h = (h ^ fold_byte(*b) as u64).wrapping_mul(0x100_0000_01B3);
        }
        mix(h)
    }
}
