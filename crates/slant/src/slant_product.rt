//! The slant product and the coproduct phase of a 3-cocycle.

ghost use Rattle.std.specs.Prelude.{◌≡◌, ◌<◌};
ghost use Rattle.group_table.specs.Group.{IsGroup};
ghost use Rattle.slant.specs.Phases.{carried, theta, gamma};

use cochain::Cocycle;
use group_table::Group;

/// `x^-1 g x`.
fn carried(group: &Group, g: u32, x: u32) -> u32
    requires g_below { g < group.now.order }
    requires x_below { x < group.now.order }
    ensures carried { result ≡ carried group.now g x }
    ensures below { result < group.now.order }
{
    group.product(group.inverse(x), group.product(g, x))
}

/// The slant product `w(g,x,y) w(x,y,(xy)^-1 g xy) / w(x, x^-1 g x, y)`, an exponent below the number of roots (Dijkgraaf,
/// Pasquier, Roche 1990).
#[tactic(auto, unfolding(crate::specs::Phases::theta))]
pub fn theta(w: &Cocycle, g: u32, x: u32, y: u32) -> u32
    requires g_below { g < w.now.group.order }
    requires x_below { x < w.now.group.order }
    requires y_below { y < w.now.group.order }
    ensures theta { result ≡ theta w.now g x y }
    ensures below { result < w.now.roots }
{
    let group = w.group();
    let roots = w.roots();
    let added = w.value(g, x, y) + w.value(x, y, carried(group, g, group.product(x, y)));
    let taken_off = w.value(x, carried(group, g, x), y);
    (added + (roots - taken_off)) % roots
}

/// The coproduct phase `w(g,h,x) w(x, x^-1 g x, x^-1 h x) / w(g, x, x^-1 h x)`, an exponent below the number of roots (Dijkgraaf,
/// Pasquier, Roche 1990).
#[tactic(auto, unfolding(crate::specs::Phases::gamma))]
pub fn gamma(w: &Cocycle, x: u32, g: u32, h: u32) -> u32
    requires x_below { x < w.now.group.order }
    requires g_below { g < w.now.group.order }
    requires h_below { h < w.now.group.order }
    ensures gamma { result ≡ gamma w.now x g h }
    ensures below { result < w.now.roots }
{
    let group = w.group();
    let roots = w.roots();
    let h_carried = carried(group, h, x);
    let added = w.value(g, h, x) + w.value(x, carried(group, g, x), h_carried);
    let taken_off = w.value(g, x, h_carried);
    (added + (roots - taken_off)) % roots
}
