//! The field of residues modulo a listed prime, as a ring object with a root of a cyclotomic polynomial, and linear algebra over it.
#![tactic(auto)]

mod arithmetic;
mod cyclotomic_root;
mod elimination;
mod fault;
mod kernels;
pub mod laws;
mod matrix;
mod minimals;
mod mod_ring;
mod mod_ring_laws;
mod moduli;
mod poly;
mod tabulate;

pub use fault::ModulusFault;
pub use kernels::kernel;
pub use matrix::Matrix;
pub use minimals::minimal;
pub use mod_ring::ModRing;
pub use poly::{Poly, roots};
