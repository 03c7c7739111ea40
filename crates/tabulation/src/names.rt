// How effects are written.
ghost use Rattle.std.specs.Prelude.{◌≡◌, ℕ, List, codes, if◌then◌else◌, nat_lt};
ghost use Rattle.tabulation.specs.Names.{count_of, name_of, four_name, six_name};

use crate::input::EffectSet;
use effects::{EffectAlgebra, FourEffect, SixEffect};

impl EffectSet {
    // How many effects there are.
    pub fn count(self) -> u8
        ensures { result ≡ count_of self }
    {
        match self {
            EffectSet::Four => FourEffect::count(),
            EffectSet::Six => SixEffect::count(),
        }
    }

    // The name of the effect of a code; a question mark where there is none.
    pub fn name(self, code: u8) -> &'static str
        ensures { result.now ≡ name_of self code }
    {
        match self {
            EffectSet::Four => name_in::<FourEffect>(code),
            EffectSet::Six => name_in::<SixEffect>(code),
        }
    }
}

// An algebra whose effects have names. No Display: its impls would have to stand with the effects, and it gives no &'static str.
trait Named: EffectAlgebra {
    ghost name: { Self → List ℕ };

    fn name(self) -> &'static str
        ensures { result.now ≡ name self };
}

fn name_in<A: Named>(code: u8) -> &'static str
    ensures { result.now ≡ (if nat_lt code A.EffectAlgebra.effects.count then A.name (A.EffectAlgebra.effects.effect code) else codes "?") }
{
    if code < A::count() {
        A::effect(code).name()
    } else {
        "?"
    }
}

impl Named for FourEffect {
    ghost name = { four_name };

    fn name(self) -> &'static str {
        match self {
            FourEffect::NotApplicable => "NA",
            FourEffect::Permit => "Permit",
            FourEffect::Deny => "Deny",
            FourEffect::Error => "Error",
        }
    }
}

impl Named for SixEffect {
    ghost name = { six_name };

    fn name(self) -> &'static str {
        match self {
            SixEffect::NotApplicable => "NA",
            SixEffect::Permit => "Permit",
            SixEffect::Deny => "Deny",
            SixEffect::IndeterminateD => "Indeterminate{D}",
            SixEffect::IndeterminateP => "Indeterminate{P}",
            SixEffect::IndeterminateDP => "Indeterminate{DP}",
        }
    }
}
