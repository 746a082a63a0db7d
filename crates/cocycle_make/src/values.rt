//! The exponents that the formulas give for three elements.

ghost use Rattle.std.specs.Prelude.{◌≡◌, ◌*◌, ◌<◌, ◌≤◌};
ghost use Rattle.cocycle_make.specs.Cocycles.{carry, type_one_value, type_two_value, type_three_value};

/// The carry of the sum of two numbers below `b`.
fn carry(b: u32, y: u32, z: u32) -> u32
    requires few { b ≤ 60 }
    requires y_below { y < b }
    requires z_below { z < b }
    ensures carry { result ≡ carry b y z }
    ensures most { result ≤ 1 }
{
    if b <= y + z { 1 } else { 0 }
}

/// The exponent of type I, where one step is `step`.
pub fn type_one_value(n: u32, step: u32, x: u32, y: u32, z: u32) -> u32
    requires few { n ≤ 60 }
    requires step_below { step < 60 }
    requires x_below { x < n }
    requires y_below { y < n }
    requires z_below { z < n }
    ensures exponent { result ≡ type_one_value n step x y z }
{
    step * x * carry(n, y, z)
}

/// The exponent of type II, where one step is `step`.
pub fn type_two_value(b: u32, step: u32, x: u32, y: u32, z: u32) -> u32
    requires positive { 0 < b }
    requires few { b ≤ 60 }
    requires step_below { step < 60 }
    requires x_few { x < 60 }
    ensures exponent { result ≡ type_two_value b step x y z }
{
    step * (x / b) * carry(b, y % b, z % b)
}

/// The exponent of type III, where one step is `step`.
pub fn type_three_value(b: u32, c: u32, step: u32, x: u32, y: u32, z: u32) -> u32
    requires b_positive { 0 < b }
    requires c_positive { 0 < c }
    requires b_few { b ≤ 60 }
    requires c_few { c ≤ 60 }
    requires step_below { step < 60 }
    requires x_few { x < 60 }
    ensures exponent { result ≡ type_three_value b c step x y z }
{
    step * (x / c / b) * (y / c % b * (z % c))
}
