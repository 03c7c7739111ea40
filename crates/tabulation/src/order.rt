// The requests in their order.
ghost use Rattle.std.specs.Prelude.{◌≡◌, ℕ, ◌+◌, ◌*◌, ◌^◌, ◌<◌, ◌≤◌, List, [], ◌∷◌, ◌++◌, map, IfOk, OnOk};
ghost use Rattle.tabulation.specs.Order.{requests};

use std::alloc::{AllocError, Global};

// Adds the requests that have the mask's facts and any of the `left` facts from the one of this weight on, absent before present.
fn push_requests(out: &mut Vec<u32>, mask: u32, weight: u32, left: u8) -> Result<(), AllocError>
    requires below { mask < weight }
    requires within { weight * 2 ^ left ≤ 65536 }
    ensures { OnOk result (out.new.items ≡ out.old.items ++ map (λ q. mask + weight * q) (requests left)) }
{
    if left == 0 {
        out.push(mask)?;
    } else {
        push_requests(out, mask, weight * 2, left - 1)?;
        push_requests(out, mask + weight, weight * 2, left - 1)?;
    }
    Ok(())
}

// Every request over so many facts, at most 16 of them, each before the next ones in the request order.
pub(crate) fn requests_in_order(heap: Global, facts: u8) -> Result<Vec<u32>, AllocError>
    requires { facts ≤ 16 }
    ensures { IfOk result (λ v. v.items ≡ requests facts) }
{
    let mut out = Vec::new(heap);
    push_requests(&mut out, 0, 1, facts)?;
    Ok(out)
}
