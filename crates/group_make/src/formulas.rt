//! The products that the formulas give, element by element.

ghost use Rattle.std.specs.Prelude.{◌≡◌, ◌+◌, ◌*◌, ◌%◌, ◌^◌, ◌<◌, ◌≤◌};
ghost use Rattle.group_make.specs.Formulas.{pair, cyclic_product, reflected, dihedral_product, dicyclic_product, triple_product, semidirect_product};

/// The sum of `g` and `h` modulo `n`.
pub fn cyclic_product(n: u32, g: u32, h: u32) -> u32
    requires positive { 0 < n }
    requires few { n ≤ 60 }
    requires g_below { g < n }
    requires h_below { h < n }
    ensures product { result ≡ cyclic_product n g h }
{
    (g + h) % n
}

/// `k`, or else `-k` modulo `n` where `j` is not 0.
fn reflected(n: u32, j: u32, k: u32) -> u32
    requires k_below { k < n }
    ensures reflected { result ≡ reflected n j k }
    ensures most { reflected n j k ≤ n }
{
    if j == 0 { k } else { n - k }
}

/// The product of two elements of the dihedral group of order `2 n`.
pub fn dihedral_product(n: u32, g: u32, h: u32) -> u32
    requires positive { 0 < n }
    requires few { 2 * n ≤ 60 }
    requires g_below { g < 2 * n }
    requires h_below { h < 2 * n }
    ensures product { result ≡ dihedral_product n g h }
{
    let turn = (g % n + reflected(n, g / n, h % n)) % n;
    turn + n * ((g / n + h / n) % 2)
}

/// The product of two elements of the dicyclic group of order `4 n`.
pub fn dicyclic_product(n: u32, g: u32, h: u32) -> u32
    requires positive { 0 < n }
    requires few { 4 * n ≤ 60 }
    requires g_below { g < 4 * n }
    requires h_below { h < 4 * n }
    ensures product { result ≡ dicyclic_product n g h }
{
    let m = 2 * n;
    let turn = (g % m + reflected(m, g / m, h % m) + n * ((g / m) * (h / m))) % m;
    turn + m * ((g / m + h / m) % 2)
}

/// The product of two triples, at each place.
pub fn triple_product(a: u32, b: u32, c: u32, g: u32, h: u32) -> u32
    requires a_positive { 0 < a }
    requires b_positive { 0 < b }
    requires c_positive { 0 < c }
    requires few { a * b * c ≤ 60 }
    requires g_below { g < a * b * c }
    requires h_below { h < a * b * c }
    ensures product { result ≡ triple_product a b c g h }
{
    let x = (g / c / b + h / c / b) % a;
    let y = (g / c % b + h / c % b) % b;
    let z = (g % c + h % c) % c;
    (x * b + y) * c + z
}

/// The power `r^j` modulo `n`.
pub fn power_modulo(n: u32, r: u32, j: u32) -> u32
    requires positive { 0 < n }
    requires few { n ≤ 60 }
    ensures power { result ≡ r ^ j % n }
    ensures below { result < n }
{
    let factor = r % n;
    let mut power = 1 % n;
    for _step in 0..j {
        power = power * factor % n;
    }
    power
}

/// The product of two elements of the semidirect product of cyclic groups of orders `n` and `m`.
pub fn semidirect_product(n: u32, m: u32, r: u32, g: u32, h: u32) -> u32
    requires n_positive { 0 < n }
    requires m_positive { 0 < m }
    requires few { n * m ≤ 60 }
    requires g_below { g < n * m }
    requires h_below { h < n * m }
    ensures product { result ≡ semidirect_product n m r g h }
{
    let moved = power_modulo(n, r, g / n) * (h % n);
    (g % n + moved) % n + n * ((g / n + h / n) % m)
}
