//! Sums, differences and products of residues.

ghost use Rattle.std.specs.Prelude.{◌≡◌, ◌+◌, ◌*◌, ◌%◌, ◌<◌, true, length};
ghost use Rattle.prime_field.specs.Moduli.{is_modulus};
ghost use Rattle.prime_field.specs.Field.{field, field_residue};
ghost use Rattle.algebra.specs.Matrices.{dot};
ghost use Rattle.prime_field.specs.ResidueLists.{AreBelow, column_of, minus_multiple};

// `a + x y`, modulo q.
pub(crate) fn plus_product(q: u32, a: u32, x: u32, y: u32) -> u32
    requires modulus { is_modulus q ≡ true }
    requires a_below { a < q }
    requires x_below { x < q }
    requires y_below { y < q }
    ensures sum { result ≡ (a + x * y) % q }
    ensures residue { (listed : is_modulus q ≡ true) → result
        ≡ ((field q listed).add (field_residue q listed a) ((field q listed).mul (field_residue q
        listed x) (field_residue q listed y))).value }
    ensures below { result < q }
{
    (a + x * y) % q
}

// `a - d c b`, modulo q.
pub(crate) fn minus_product(q: u32, a: u32, d: u32, c: u32, b: u32) -> u32
    requires modulus { is_modulus q ≡ true }
    requires a_below { a < q }
    requires d_below { d < q }
    requires c_below { c < q }
    requires b_below { b < q }
    ensures residue { (listed : is_modulus q ≡ true) → result ≡ minus_multiple q listed a d c b }
    ensures below { result < q }
{
    let factor = plus_product(q, 0, d, c);
    plus_product(q, a, (q - factor) % q, b)
}

// The sum of the products of the numbers at equal places, modulo q.
pub(crate) fn dot(q: u32, x: &[u32], y: &[u32]) -> u32
    requires modulus { is_modulus q ≡ true }
    requires same_length { length x.now ≡ length y.now }
    requires x_below { AreBelow q x.now }
    requires y_below { AreBelow q y.now }
    ensures dot { (listed : is_modulus q ≡ true) → result
        ≡ (dot (field q listed) (length x.now) (column_of q listed x.now) (column_of q listed
        y.now)).value }
    ensures below { result < q }
{
    let mut sum = 0;
    for (i, a) in x.iter().enumerate() {
        sum = plus_product(q, sum, *a, y[i]);
    }
    sum
}
