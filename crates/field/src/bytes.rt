// The field of 256 codes: polynomials over two elements, modulo 0x11D, multiplied by their logarithms.
ghost use Rattle.std.specs.Prelude.{◌≡◌, ℕ, ◌<◌, slice_index, refl};
ghost use Rattle.laws.specs.Ops.{Ops, Laws, less, power as power_of};
ghost use Rattle.laws.specs.Instances.{bytes};
ghost use Rattle.laws.proofs.Fields.{byte_laws};

use crate::field::Field;
use crate::logs::{exp, first_powers, log};

/// Every byte is a code.
pub struct Bytes;

impl Field for Bytes {
    const ORDER: u16 = 256;

    const GENERATOR: u8 = 2;

    ghost ORDER = { 256 };

    ghost GENERATOR = { 2 };

    ghost ops = { bytes };

    ghost lawful = { byte_laws };

    ghost order_is = { refl };

    ghost generator_is = { refl };

    fn add(a: u8, b: u8) -> u8 {
        a ^ b
    }

    fn neg(a: u8) -> u8 {
        a
    }

    fn mul(a: u8, b: u8) -> u8 {
        // no test for 0: its logarithm leads to the zeros of the table
        exp(log(a) + log(b))
    }

    fn inv(a: u8) -> u8 {
        if a == 0 { 0 } else { exp(255 - log(a)) }
    }

    fn powers() -> [u8; 256] {
        first_powers()
    }
}
