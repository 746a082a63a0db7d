//! Conjugation phases, regular places, and the rank of the centre of a twisted group algebra.

ghost use Rattle.std.specs.Prelude.{◌≡◌, ◌<◌, ◌==◌, ◌&&◌, not, nat_le, length, IfOk};
ghost use Rattle.group_table.specs.Group.{identity_of};
ghost use Rattle.classes.specs.Conjugacy.{conjugate, representative_of};
ghost use Rattle.scan.specs.First.{all_below};
ghost use Rattle.twisted.specs.Twist.{size, IsTwist};
ghost use Rattle.twisted.specs.Regular.{kappa, is_symmetric_at, is_regular, regular_representatives, rank};

use crate::twist::Twist;
use classes::conjugate;
use group_table::{Memory, Nats};
use scan::holds_below;
use std::alloc::Global;

/// The conjugation phase at the places `c` and `p`: the exponent at `c` and `p` less that at `c p c^-1` and `c`, modulo the modulus.
/// In the twisted group algebra `u_c u_p` is that root times `u_q u_c`, where `q` is `c p c^-1`.
#[tactic(auto, unfolding(crate::specs::Regular::kappa))]
pub fn kappa(twist: &Twist, c: u32, p: u32) -> u32
    requires c_below { c < size twist.now }
    requires p_below { p < size twist.now }
    ensures kappa { result ≡ kappa twist.now c p }
    ensures below { result < twist.now.modulus }
{
    let modulus = twist.modulus();
    let carried = conjugate(twist.group(), c, p);
    (twist.phase(c, p) + (modulus - twist.phase(carried, c))) % modulus
}

/// Whether the phases of `p` and `r` are the same in both orders, where `p` and `r` commute.
fn is_symmetric_at(twist: &Twist, p: u32, r: u32) -> bool
    requires p_below { p < size twist.now }
    requires r_below { r < size twist.now }
    ensures symmetric { result ≡ is_symmetric_at twist.now p r }
{
    let group = twist.group();
    if group.product(p, r) == group.product(r, p) {
        twist.phase(p, r) == twist.phase(r, p)
    } else {
        true
    }
}

/// Whether the place `p` is regular: its phase with each place that commutes with it is the same in both orders.
#[tactic(auto, unfolding(crate::specs::Regular::is_regular))]
pub fn is_regular(twist: &Twist, p: u32) -> bool
    requires p_below { p < size twist.now }
    ensures regular { result ≡ is_regular twist.now p }
{
    holds_below(twist.size(), |r| is_symmetric_at(twist, p, r))
}

/// Whether no conjugate of the place `p` is lower.
fn is_least(twist: &Twist, p: u32) -> bool
    requires p_below { p < size twist.now }
    ensures least { result
        ≡ all_below (size twist.now) (λ c. nat_le p (conjugate twist.now.group c p)) }
    ensures twist { IsTwist twist.now }
{
    holds_below(twist.size(), |c| p <= conjugate(twist.group(), c, p))
}

/// Whether the place `p` represents its class.
#[tactic(auto, using(crate::proofs::Representatives::is_least_in_class))]
fn is_representative(twist: &Twist, p: u32) -> bool
    requires p_below { p < size twist.now }
    ensures representative { result ≡ (representative_of twist.now.group p == p) }
    ensures twist { IsTwist twist.now }
{
    is_least(twist, p)
}

/// Whether the place `p` represents a regular class other than that of the identity.
fn is_other_regular(twist: &Twist, p: u32) -> bool
    requires p_below { p < size twist.now }
    ensures other { result
        ≡ (((representative_of twist.now.group p == p) && not (p == identity_of twist.now.group))
        && is_regular twist.now p) }
{
    is_representative(twist, p) && p != twist.group().identity() && is_regular(twist, p)
}

/// The rank: how many classes of places are regular. It is the number of class sums in a basis of the centre.
#[tactic(auto, using(crate::proofs::Representatives::grown, crate::proofs::Representatives::rank_is))]
pub fn centre_rank(twist: &Twist) -> u32
    ensures rank { result ≡ rank twist.now }
{
    let mut rank = 1;
    for p in 0..twist.size() {
        if is_other_regular(twist, p) {
            rank += 1;
        }
    }
    rank
}

/// The least place of each regular class: that of the identity first, then the others ascending.
#[tactic(auto, using(crate::proofs::Representatives::grown, crate::proofs::Representatives::regular_representatives_are))]
pub fn regular_reps(alloc: Global, twist: &Twist) -> Result<Nats, Memory>
    ensures representatives { IfOk result (λ places. places ≡ regular_representatives twist.now) }
{
    let mut places = Nats::empty(alloc);
    places.push(twist.group().identity())?;
    for p in 0..twist.size() {
        if is_other_regular(twist, p) {
            places.push(p)?;
        }
    }
    Ok(places)
}
