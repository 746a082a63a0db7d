//! The ring object of cyclotomic values.

ghost use Rattle.std.specs.Prelude.{◌≡◌, true};
ghost use Rattle.cyclotomic.specs.Conductors.{is_conductor};

/// The ring object of the values of conductor K. It exists only where K is an entry of the table of
/// conductors.
#[derive(Clone, Copy, Debug)]
pub struct CycRing<const K: u32> {
    ghost conductor: { is_conductor K ≡ true },
}

impl<const K: u32> CycRing<K> {
    /// The ring object.
    pub fn new() -> CycRing<K>
        requires { is_conductor K ≡ true }
    {
        CycRing {}
    }
}
