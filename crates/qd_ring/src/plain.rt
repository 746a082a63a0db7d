//! Values as their coefficients alone, and why a token is no value.

/// A value without its conductor: the coefficients of 1, x, x^2, .., from the lowest power.
#[derive(Clone, Copy, PartialEq, Eq, PartialOrd, Ord, Hash, Debug)]
pub struct Plain {
    /// That of x^p at place p.
    pub coefficients: [i128; 42],
}

/// Why a token is no text of a value.
#[derive(Clone, Copy, PartialEq, Eq, Hash, Debug)]
pub enum ValueFault {
    /// It isn't the text of any list of whole numbers that are 0 from that of x^phi on.
    NotValue,
    /// It is the text of such a list, but one of the numbers is over 2^120 - 1 in magnitude.
    Wide,
}
