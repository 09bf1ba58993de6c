// What a field is: its order, its generator and four operations on codes.
ghost use Rattle.std.specs.Prelude.{◌≡◌, ℕ, ◌<◌, slice_index};
ghost use Rattle.laws.specs.Ops.{Ops, Laws, less, power as power_of};

/// A finite field whose elements are the codes below `ORDER`. An operation on what is no code answers 0.
pub trait Field {
    /// How many codes there are.
    const ORDER: u16;

    ghost ORDER: { ℕ };

    /// A code whose powers are all the codes but 0.
    const GENERATOR: u8;

    ghost GENERATOR: { ℕ };

    ghost ops: { Ops };

    fn add(a: u8, b: u8) -> u8
        ensures { result ≡ ops.add a b };

    fn neg(a: u8) -> u8
        ensures { result ≡ ops.neg a };

    fn mul(a: u8, b: u8) -> u8
        ensures { result ≡ ops.mul a b };

    fn inv(a: u8) -> u8
        ensures { result ≡ ops.inv a };

    /// a minus b.
    fn sub(a: u8, b: u8) -> u8
        ensures { result ≡ less ops a b }
    {
        Self::add(a, Self::neg(b))
    }

    /// The powers of the generator, from exponent 0 on. A field that has them in a table answers them from there.
    fn powers() -> [u8; 256]
        ensures { (k : ℕ) → k < 256 → slice_index result k ≡ power_of ops ops.generator k }
    {
        let mut all = [0; 256];
        let mut last = 1;
        for power in all.iter_mut() {
            *power = last;
            last = Self::mul(Self::GENERATOR, last);
        }
        all
    }

    ghost lawful: { Laws ops };

    ghost order_is: { ORDER ≡ ops.order };

    ghost generator_is: { GENERATOR ≡ ops.generator };
}
