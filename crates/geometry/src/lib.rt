// How a frame is laid out.
#![tactic(auto)]

ghost use Rattle.std.specs.Prelude.{◌≡◌, ◌-◌, ◌*◌, MatchResult};
ghost use Rattle.refusal.specs.declared.Refusal.TheVariants.{BadGeometry};
ghost use Rattle.geometry.specs.Rule.{Rule};

use refusal::Refusal;

/// The layout of a frame: strips of squares, the last strips of which are checks.
#[derive(Clone, Copy, PartialEq, Eq, Debug)]
pub struct Geometry {
    /// The order of the field.
    order: usize,
    /// Squares in a strip.
    squares: usize,
    /// Strips in a frame, check strips among them.
    strips: usize,
    /// Check strips.
    checks: usize,
    ghost rule: { Rule order squares strips checks },
}

impl Geometry {
    /// The geometry of these numbers, refused where they are outside the rule.
    pub fn new(
        order: usize,
        squares: usize,
        strips: usize,
        checks: usize,
    ) -> Result<Geometry, Refusal>
        ensures { MatchResult result (λ g. (g.order ≡ order) × (g.squares ≡ squares) × (g.strips ≡ strips) × (g.checks ≡ checks)) (λ e. (e ≡ BadGeometry) × (Rule order squares strips checks → ⊥)) }
    {
        if squares == 0 || checks == 0 || checks >= strips {
            return Err(Refusal::BadGeometry);
        }
        match strips.checked_mul(squares) {
            Some(symbols) if symbols < order => Ok(Geometry {
                order,
                squares,
                strips,
                checks,
            }),
            _ => Err(Refusal::BadGeometry),
        }
    }

    pub fn order(&self) -> usize
        ensures { result ≡ self.now.order }
    {
        self.order
    }

    pub fn squares(&self) -> usize
        ensures { result ≡ self.now.squares }
    {
        self.squares
    }

    pub fn strips(&self) -> usize
        ensures { result ≡ self.now.strips }
    {
        self.strips
    }

    pub fn checks(&self) -> usize
        ensures { result ≡ self.now.checks }
    {
        self.checks
    }

    /// How many symbols a frame has.
    pub fn frame_size(&self) -> usize
        ensures { result ≡ self.now.strips * self.now.squares }
    {
        let Geometry {
            strips,
            squares,
            ..
        } = *self;
        strips * squares
    }

    /// How many symbols a record has: those of the strips that are no checks.
    pub fn record_size(&self) -> usize
        ensures { result ≡ (self.now.strips - self.now.checks) * self.now.squares }
    {
        (self.strips - self.checks) * self.squares
    }
}
