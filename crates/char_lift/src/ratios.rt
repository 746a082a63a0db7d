//! The character ratios that a central character gives.

ghost use Rattle.std.specs.Prelude.{◌≡◌, ℕ, ◌<◌, length, slice_index, IfOk};
ghost use Rattle.twisted.specs.Twist.{size};
ghost use Rattle.twisted.specs.Regular.{regular_representatives, rank};
ghost use Rattle.prime_field.specs.ResidueLists.{AreBelow};
ghost use Rattle.dixon_split.specs.CentralLists.{central_value};
ghost use Rattle.group_table.specs.Numbers.{tabulated};
ghost use Rattle.char_lift.specs.Ratios.{regular_number, class_factor, character_ratio, character_ratios};

use crate::root_powers::RootPowers;
use classes::Classes;
use dixon_split::Central;
use group_table::{Memory, Nats};
use scan::first_below;
use std::alloc::Global;
use twisted::{Twist, is_regular, kappa, regular_reps};

/// The number of the class of `y` among the regular classes, from 0; 0 where `y` isn't regular.
#[tactic(auto, unfolding(crate::specs::Ratios::regular_number))]
fn regular_number(twist: &Twist, classes: &Classes, representatives: &Nats, y: u32) -> u32
    requires classes { classes.now ≡ twist.now.group }
    requires representatives { representatives.now ≡ regular_representatives twist.now }
    requires y_below { y < size twist.now }
    ensures number { result ≡ regular_number twist.now y }
{
    let representative = classes.representative(classes.class_of(y));
    first_below(
        representatives.len(),
        |t| if representatives.at(t) == representative {
            Some(t)
        } else {
            None
        },
    )
    .unwrap_or(0)
}

/// The factor by which a value at the class sum of the class of `y` is multiplied at `y`: the inverse of the size of the class and of the
/// root of the phase that carries the representative to `y`; 0 where `y` isn't regular.
#[tactic(auto, unfolding(crate::specs::Ratios::class_factor))]
fn class_factor(twist: &Twist, classes: &Classes, powers: &RootPowers, y: u32) -> u32
    requires classes { classes.now ≡ twist.now.group }
    requires y_below { y < size twist.now }
    ensures factor { result
        ≡ class_factor twist.now powers.now.q powers.now.conductor powers.now.root y }
    ensures below { result < powers.now.q }
{
    if !is_regular(twist, y) {
        return 0;
    }
    let class = classes.class_of(y);
    let phase = kappa(twist, classes.transporter(y), classes.representative(class));
    powers.product(
        powers.inverse(classes.size(class)),
        powers.inverse_root(twist, phase),
    )
}

/// For each place the number of its class among the regular classes and its factor.
#[derive(Debug, Drop)]
pub(crate) struct Shares {
    pub(crate) numbers: Nats,
    pub(crate) factors: Nats,
}

impl Shares {
    /// The class numbers and factors of all places of the twist.
    pub(crate) fn of(alloc: Global, twist: &Twist, powers: &RootPowers) -> Result<Shares, Memory>
        ensures numbers { IfOk result (λ shares. shares.numbers
            ≡ tabulated (size twist.now) (regular_number twist.now)) }
        ensures factors { IfOk result (λ shares. shares.factors ≡ tabulated (size twist.now)
            (class_factor twist.now powers.now.q powers.now.conductor powers.now.root)) }
    {
        let classes = Classes::of(alloc, twist.group())?;
        let representatives = regular_reps(alloc, twist)?;
        let numbers = Nats::tabulate(
            alloc,
            twist.size(),
            |y| regular_number(twist, &classes, &representatives, y),
        )?;
        let factors = Nats::tabulate(
            alloc,
            twist.size(),
            |y| class_factor(twist, &classes, powers, y),
        )?;
        Ok(Shares { numbers, factors })
    }
}

/// The character ratio at the place `y` of the central character with the number `row`.
fn character_ratio(
    twist: &Twist,
    powers: &RootPowers,
    shares: &Shares,
    central: &Central,
    row: u32,
    y: u32,
) -> u32
    requires numbers { shares.now.numbers ≡ tabulated (size twist.now) (regular_number twist.now) }
    requires factors { shares.now.factors ≡ tabulated (size twist.now)
        (class_factor twist.now powers.now.q powers.now.conductor powers.now.root) }
    requires some { 0 < rank twist.now }
    requires width { central.now.width ≡ rank twist.now }
    requires row_below { row < length central.now.lists }
    requires values { (t : ℕ) → t < rank twist.now
        → central_value central.now row t < powers.now.q }
    requires y_below { y < size twist.now }
    ensures ratio { result
        ≡ character_ratio twist.now powers.now.q powers.now.conductor powers.now.root
        (central_value central.now row) y }
    ensures below { result < powers.now.q }
{
    powers.product(
        central.value(row, shares.numbers.at(y)),
        shares.factors.at(y),
    )
}

/// The character ratios at all places of the central character with the number `row`.
pub(crate) fn character_ratios(
    alloc: Global,
    twist: &Twist,
    powers: &RootPowers,
    shares: &Shares,
    central: &Central,
    row: u32,
) -> Result<Nats, Memory>
    requires numbers { shares.now.numbers ≡ tabulated (size twist.now) (regular_number twist.now) }
    requires factors { shares.now.factors ≡ tabulated (size twist.now)
        (class_factor twist.now powers.now.q powers.now.conductor powers.now.root) }
    requires some { 0 < rank twist.now }
    requires width { central.now.width ≡ rank twist.now }
    requires row_below { row < length central.now.lists }
    requires values { (t : ℕ) → t < rank twist.now
        → central_value central.now row t < powers.now.q }
    ensures ratios { IfOk result (λ ratios. ratios
        ≡ character_ratios twist.now powers.now.q powers.now.conductor powers.now.root
        (central_value central.now row)) }
{
    Nats::tabulate(
        alloc,
        twist.size(),
        |y| character_ratio(twist, powers, shares, central, row, y),
    )
}
