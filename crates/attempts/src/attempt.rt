// One attempt: the candidate, and whether it is a frame that fits.
ghost use Rattle.std.specs.Prelude.{◌≡◌, ◌↔◌, IsTrue, All};
ghost use Rattle.laws.specs.Ops.{Ops, Laws};
ghost use Rattle.fitting.specs.Marks.{silent_limit};
ghost use Rattle.fitting.specs.Reading.{showing_of};
ghost use Rattle.candidates.specs.Chosen.{Chosen};
ghost use Rattle.attempts.specs.Attempts.{Tried};

use crate::start::Start;
use candidates::candidate;
use field::Field;
use fitting::{Counts, SILENT_LIMIT};

// Whether all are 0.
fn all_zero(sums: &[u8]) -> bool
    ensures { IsTrue result ↔ All (λ sum. sum ≡ 0) sums.now }
{
    sums.iter().all(|sum| *sum == 0)
}

/// A frame that fits, at the front of a buffer, and what is wrong with what is shown.
#[derive(Clone, Copy, PartialEq, Eq, Debug)]
pub struct Fit {
    pub frame: [u8; 256],
    pub counts: Counts,
}

// The candidate for the listed squares, if it is a frame that fits.
pub fn attempt<F: Field>(start: &Start<F>, squares: &[u8]) -> Option<Fit>
    requires { let g = start.now.reading.now.geometry in Chosen g.squares g.strips squares.now }
    ensures { let g = start.now.reading.now.geometry in Tried F.Field.ops silent_limit g.squares g.strips g.checks (showing_of start.now.reading.now) start.now.base.now squares.now result }
{
    let site = &start.site;
    let mut frame = [0; 256];
    let array = &mut frame[..start.base.len()];
    array.copy_from_slice(start.base);
    let mut table = [0; 256];
    let table = &mut table[..start.checks.len()];
    table.copy_from_slice(start.checks);
    candidate(site, squares, array, table);
    site.locators.check_sums(site.geometry, array, table);
    if !all_zero(table) {
        return None;
    }
    let counts = start.reading.weigh(SILENT_LIMIT, array)?;
    Some(Fit { frame, counts })
}
