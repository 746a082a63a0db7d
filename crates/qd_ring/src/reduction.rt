//! The table of the cyclotomic polynomials of the conductors, as the coefficients by which values
//! are reduced.

ghost use Rattle.std.specs.Prelude.{◌≡◌, ◌<◌, ◌≤◌, true};
ghost use Rattle.cyclotomic.specs.Conductors.{is_conductor, reduction_of};

/// The coefficients of the cyclotomic polynomial of conductor k below its leading 1.
pub fn reduction(k: u32) -> &'static [i8]
    requires { is_conductor k ≡ true }
    ensures { result.now ≡ reduction_of k }
{
    if k < 25 {
        return first_reduction(k);
    }
    if k < 54 {
        return middle_reduction(k);
    }
    last_reduction(k)
}

// The same, for the conductors from 4 to 24.
#[tactic(auto, unfolding(cyclotomic::specs::Conductors::is_conductor, cyclotomic::specs::Conductors::conductors, cyclotomic::specs::Conductors::reduction_of, cyclotomic::specs::Conductors::reductions))]
fn first_reduction(k: u32) -> &'static [i8]
    requires entry { is_conductor k ≡ true }
    requires below { k < 25 }
    ensures { result.now ≡ reduction_of k }
{
    if k == 4 {
        return &[1, 0];
    }
    if k == 6 {
        return &[1, -1];
    }
    if k == 8 {
        return &[1, 0, 0, 0];
    }
    if k == 9 {
        return &[1, 0, 0, 1, 0, 0];
    }
    if k == 12 {
        return &[1, 0, -1, 0];
    }
    if k == 16 {
        return &[1, 0, 0, 0, 0, 0, 0, 0];
    }
    if k == 18 {
        return &[1, 0, 0, -1, 0, 0];
    }
    if k == 20 {
        return &[1, 0, -1, 0, 1, 0, -1, 0];
    }
    &[1, 0, 0, 0, -1, 0, 0, 0]
}

// The same, for the conductors from 25 to 49.
#[tactic(auto, unfolding(cyclotomic::specs::Conductors::is_conductor, cyclotomic::specs::Conductors::conductors, cyclotomic::specs::Conductors::reduction_of, cyclotomic::specs::Conductors::reductions))]
fn middle_reduction(k: u32) -> &'static [i8]
    requires entry { is_conductor k ≡ true }
    requires above { 25 ≤ k }
    requires below { k < 54 }
    ensures { result.now ≡ reduction_of k }
{
    if k == 25 {
        return &[1, 0, 0, 0, 0, 1, 0, 0, 0, 0, 1, 0, 0, 0, 0, 1, 0, 0, 0, 0];
    }
    if k == 27 {
        return &[1, 0, 0, 0, 0, 0, 0, 0, 0, 1, 0, 0, 0, 0, 0, 0, 0, 0];
    }
    if k == 28 {
        return &[1, 0, -1, 0, 1, 0, -1, 0, 1, 0, -1, 0];
    }
    if k == 30 {
        return &[1, 1, 0, -1, -1, -1, 0, 1];
    }
    if k == 32 {
        return &[1, 0, 0, 0, 0, 0, 0, 0, 0, 0, 0, 0, 0, 0, 0, 0];
    }
    if k == 36 {
        return &[1, 0, 0, 0, 0, 0, -1, 0, 0, 0, 0, 0];
    }
    if k == 40 {
        return &[1, 0, 0, 0, -1, 0, 0, 0, 1, 0, 0, 0, -1, 0, 0, 0];
    }
    if k == 42 {
        return &[1, 1, 0, -1, -1, 0, 1, 0, -1, -1, 0, 1];
    }
    if k == 48 {
        return &[1, 0, 0, 0, 0, 0, 0, 0, -1, 0, 0, 0, 0, 0, 0, 0];
    }
    &[
        1, 0, 0, 0, 0, 0, 0, 1, 0, 0, 0, 0, 0, 0, 1, 0, 0, 0, 0, 0, 0, 1, 0, 0, 0, 0, 0, 0, 1, 0,
        0, 0, 0, 0, 0, 1, 0, 0, 0, 0, 0, 0,
    ]
}

// The same, for the conductors from 54 to 120.
#[tactic(auto, unfolding(cyclotomic::specs::Conductors::is_conductor, cyclotomic::specs::Conductors::conductors, cyclotomic::specs::Conductors::reduction_of, cyclotomic::specs::Conductors::reductions))]
fn last_reduction(k: u32) -> &'static [i8]
    requires entry { is_conductor k ≡ true }
    requires above { 54 ≤ k }
    ensures { result.now ≡ reduction_of k }
{
    if k == 54 {
        return &[1, 0, 0, 0, 0, 0, 0, 0, 0, -1, 0, 0, 0, 0, 0, 0, 0, 0];
    }
    if k == 60 {
        return &[1, 0, 1, 0, 0, 0, -1, 0, -1, 0, -1, 0, 0, 0, 1, 0];
    }
    if k == 64 {
        return &[
            1, 0, 0, 0, 0, 0, 0, 0, 0, 0, 0, 0, 0, 0, 0, 0, 0, 0, 0, 0, 0, 0, 0, 0, 0, 0, 0, 0, 0,
            0, 0, 0,
        ];
    }
    if k == 72 {
        return &[
            1, 0, 0, 0, 0, 0, 0, 0, 0, 0, 0, 0, -1, 0, 0, 0, 0, 0, 0, 0, 0, 0, 0, 0,
        ];
    }
    if k == 84 {
        return &[
            1, 0, 1, 0, 0, 0, -1, 0, -1, 0, 0, 0, 1, 0, 0, 0, -1, 0, -1, 0, 0, 0, 1, 0,
        ];
    }
    if k == 96 {
        return &[
            1, 0, 0, 0, 0, 0, 0, 0, 0, 0, 0, 0, 0, 0, 0, 0, -1, 0, 0, 0, 0, 0, 0, 0, 0, 0, 0, 0, 0,
            0, 0, 0,
        ];
    }
    &[
        1, 0, 0, 0, 1, 0, 0, 0, 0, 0, 0, 0, -1, 0, 0, 0, -1, 0, 0, 0, -1, 0, 0, 0, 0, 0, 0, 0, 1,
        0, 0, 0,
    ]
}
