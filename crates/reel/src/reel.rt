// A reel, and the four calls on it.
ghost use Rattle.std.specs.Prelude.{◌≡◌, ◌*◌, ◌<◌, length, MatchResult};
ghost use Rattle.refusal.specs.declared.Refusal.TheVariants.{Unsuited};
ghost use Rattle.medium.specs.Limits.{Limits};
ghost use Rattle.kept.specs.Code.{room};
ghost use Rattle.kept.specs.Shows.{shown_of};
ghost use Rattle.kept.specs.Calls.{Finds};
ghost use Rattle.reel.specs.Calls.{code_on, Ready, Storing, Reading, Mending, Copying, ReadingKept, MendingKept};
ghost use Rattle.reel.specs.Loading.{Loads};

use crate::sight::Sight;
use crate::writing::put;
use corrector::correct;
use field::Field;
use fitting::Counts;
use frame::encode;
use geometry::Geometry;
use medium::Medium;
use refusal::Refusal;
use std::marker::PhantomData;

/// One medium with one geometry and one field, fixed from loading on.
///
/// Loading is a test that answers the number, then a making of what passed, which cannot refuse. A reel can be made of what did
/// not pass, and its medium can be replaced, so that nothing in the type says that the medium suits: each call looks whether it
/// does, and answers 2 if not. On a reel of what passed the test this never comes about.
#[derive(Drop)]
pub struct Reel<M: Medium, F: Field> {
    /// The medium, which wears.
    pub medium: M,
    geometry: Geometry,
    field: PhantomData<F>,
}

impl<M: Medium, F: Field> Reel<M, F> {
    /// The geometry of a reel over this medium: refused with 1 if the numbers are outside the rule of a geometry, then with 2 if
    /// the order is not the field's, the squares or strips are not the medium's, or it has too few levels.
    pub fn test(
        medium: &M,
        order: usize,
        squares: usize,
        strips: usize,
        checks: usize,
    ) -> Result<Geometry, Refusal>
        ensures value { Loads F.Field.ops (M.Medium.shows medium.now) order squares strips checks result }
        ensures limits { Limits (M.Medium.shows medium.now) }
    {
        // the limits of a medium are told by this call alone
        let _ = medium.levels();
        let geometry = Geometry::new(order, squares, strips, checks)?;
        Self::suited(medium, &geometry)?;
        Ok(geometry)
    }

    // Refused with 2 unless the geometry has the field's order, and the medium its strips, its squares, and levels enough.
    fn suited(medium: &M, geometry: &Geometry) -> Result<(), Refusal>
        ensures value { MatchResult result (λ _. Ready F.Field.ops geometry.now (M.Medium.shows medium.now)) (λ e. (e ≡ Unsuited) × (Ready F.Field.ops geometry.now (M.Medium.shows medium.now) → ⊥)) }
        ensures limits { Limits (M.Medium.shows medium.now) }
    {
        // the limits of a medium are told by this call alone
        let _ = medium.levels();
        if geometry.order() != usize::from(F::ORDER)
            || medium.strips() != geometry.strips()
            || medium.squares() != geometry.squares()
            || geometry.order() > medium.levels()
        {
            return Err(Refusal::Unsuited);
        }
        Ok(())
    }

    /// A reel over the medium as it stands. One of what passed the test is ready for every call.
    pub fn load(medium: M, geometry: Geometry) -> Reel<M, F>
        ensures value { (result.medium ≡ medium) × (result.geometry ≡ geometry) }
        ensures left { Ready F.Field.ops geometry (M.Medium.shows medium) → Ready F.Field.ops result.geometry (M.Medium.shows result.medium) }
    {
        Reel {
            medium,
            geometry,
            field: PhantomData,
        }
    }

    /// The medium again.
    pub fn unload(self) -> M
        ensures value { result ≡ self.medium }
    {
        let Reel { medium, .. } = self;
        medium
    }

    /// How many symbols a record has.
    pub fn record_size(&self) -> usize
        ensures value { result ≡ room (code_on F.Field.ops self.now.geometry) }
    {
        self.geometry.record_size()
    }

    /// Writes the frame of a record.
    pub fn store(&mut self, frame: usize, symbols: &[u8]) -> Result<(), Refusal>
        ensures still { self.new.geometry ≡ self.old.geometry }
        ensures frame { Storing F.Field.ops self.old.geometry (M.Medium.shows self.old.medium) frame symbols.now result (M.Medium.shows self.new.medium) }
        ensures limits { Limits (M.Medium.shows self.old.medium) }
    {
        Self::suited(&self.medium, &self.geometry)?;
        if frame >= self.medium.frames() {
            return Err(Refusal::NoSuchPlace);
        }
        // The encoder refuses a bad record before the medium is asked whether the frame is open.
        let mut codes = [0; 255];
        let codes = &mut codes[..self.geometry.frame_size()];
        encode::<F>(&self.geometry, symbols, codes)?;
        if !self.medium.is_open(frame)? {
            return Err(Refusal::Closed);
        }
        put(&mut self.medium, frame, codes)
    }

    /// Fills the buffer with the record whose frame fits what a frame shows: a kept record, as it was stored.
    pub fn read(&mut self, frame: usize, out: &mut [u8]) -> Result<Counts, Refusal>
        ensures still { self.new.geometry ≡ self.old.geometry }
        ensures value { Reading F.Field.ops self.old.geometry (M.Medium.shows self.old.medium) frame out.old result out.new (M.Medium.shows self.new.medium) }
        ensures kept { ReadingKept F.Field.ops self.old.geometry (M.Medium.shows self.old.medium) frame out.old result out.new }
        ensures limits { Limits (M.Medium.shows self.old.medium) }
    {
        self.read_fitting(frame, out)
    }

    // Fills the buffer with the record whose frame fits what a frame shows.
    fn read_fitting(&mut self, frame: usize, out: &mut [u8]) -> Result<Counts, Refusal>
        ensures still { self.new.geometry ≡ self.old.geometry }
        ensures value { Reading F.Field.ops self.old.geometry (M.Medium.shows self.old.medium) frame out.old result out.new (M.Medium.shows self.new.medium) }
        ensures limits { Limits (M.Medium.shows self.old.medium) }
    {
        Self::suited(&self.medium, &self.geometry)?;
        if frame >= self.medium.frames() {
            return Err(Refusal::NoSuchPlace);
        }
        if out.len() != self.record_size() {
            return Err(Refusal::WrongLength);
        }
        let mut codes = [0; 255];
        let codes = &mut codes[..self.geometry.frame_size()];
        let counts = self.find(frame, codes)?;
        out.copy_from_slice(&codes[..out.len()]);
        Ok(counts)
    }

    /// Writes the frame that fits what a frame shows back in its place: that of a kept record.
    pub fn mend(&mut self, frame: usize) -> Result<Counts, Refusal>
        ensures still { self.new.geometry ≡ self.old.geometry }
        ensures frame { Mending F.Field.ops self.old.geometry (M.Medium.shows self.old.medium) frame result (M.Medium.shows self.new.medium) }
        ensures kept { MendingKept F.Field.ops self.old.geometry (M.Medium.shows self.old.medium) frame result (M.Medium.shows self.new.medium) }
        ensures limits { Limits (M.Medium.shows self.old.medium) }
    {
        self.copy(frame, frame)
    }

    /// Writes the frame that fits what the source shows as the target.
    pub fn copy(&mut self, source: usize, target: usize) -> Result<Counts, Refusal>
        ensures still { self.new.geometry ≡ self.old.geometry }
        ensures frame { Copying F.Field.ops self.old.geometry (M.Medium.shows self.old.medium) source target result (M.Medium.shows self.new.medium) }
        ensures limits { Limits (M.Medium.shows self.old.medium) }
    {
        Self::suited(&self.medium, &self.geometry)?;
        if source >= self.medium.frames() {
            return Err(Refusal::NoSuchPlace);
        }
        if !self.medium.is_open(target)? {
            return Err(Refusal::Closed);
        }
        let mut codes = [0; 255];
        let codes = &mut codes[..self.geometry.frame_size()];
        let counts = self.find(source, codes)?;
        put(&mut self.medium, target, codes)?;
        Ok(counts)
    }

    // Finds the frame that fits what a frame of the medium shows. Asks for a reel that is ready, a frame that there is, and a
    // buffer of its size, in which a refusal leaves anything.
    fn find(&mut self, frame: usize, found: &mut [u8]) -> Result<Counts, Refusal>
        requires ready { Ready F.Field.ops self.old.geometry (M.Medium.shows self.old.medium) }
        requires there { frame < (M.Medium.shows self.old.medium).frames }
        requires long { length found.old ≡ self.old.geometry.strips * self.old.geometry.squares }
        ensures still { self.new.geometry ≡ self.old.geometry }
        ensures same { M.Medium.shows self.new.medium ≡ M.Medium.shows self.old.medium }
        ensures frame { Finds (code_on F.Field.ops self.old.geometry) (shown_of (M.Medium.shows self.old.medium) frame) result found.new }
    {
        let sight = Sight::of(&mut self.medium, frame);
        correct::<F>(&self.geometry, sight.shown(), found)
    }
}
