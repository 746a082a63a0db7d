//! Reads of a web of fusion numbers.

ghost use Rattle.std.specs.Prelude.{◌≡◌, ◌<◌, ◌*◌, length, IfOk};
ghost use Rattle.fusion_web.specs.Entries.{count_of};
ghost use Rattle.fusion.specs.Reads.{plane_of, dual_of};

use fusion_web::Web;
use group_table::{Memory, Nats};
use scan::first_below;
use std::alloc::Global;

/// How often `k` comes in the product of each pair of simples, by the first, then the second.
pub fn plane(alloc: Global, web: &Web, k: u32) -> Result<Nats, Memory>
    requires k_below { k < web.now.simples }
    ensures plane { IfOk result (λ plane. plane ≡ plane_of web.now k) }
    ensures squares { IfOk result (λ plane. length plane ≡ web.now.simples * web.now.simples) }
{
    let simples = web.simples();
    let mut plane = Nats::empty(alloc);
    for q in 0..simples * simples {
        plane.push(web.count(q / simples, q % simples, k))?;
    }
    Ok(plane)
}

/// The least simple in whose product with `i` the vacuum comes once; `None` exactly where there is none.
pub fn dual(web: &Web, i: u32) -> Option<u32>
    requires i_below { i < web.now.simples }
    ensures dual { result ≡ dual_of web.now i }
{
    first_below(
        web.simples(),
        |j| if web.count(i, j, 0) == 1 {
            Some(j)
        } else {
            None
        },
    )
}
