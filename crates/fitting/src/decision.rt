// Whether a frame fits.
ghost use Rattle.fitting.specs.Decision.{Decided};

use crate::counts::Counts;
use crate::reading::{Reading, Shown};
use field::Field;
use geometry::Geometry;
use refusal::Refusal;

/// How many squares of a frame may be silent.
pub const SILENT_LIMIT: usize = 1;

/// The counts if the frame fits what is shown, and `None` if it does not.
pub fn fits<F: Field>(
    geometry: &Geometry,
    shown: Shown,
    frame: &[u8],
) -> Result<Option<Counts>, Refusal>
    ensures { Decided F.Field.ops.order geometry.now shown.entry frame.now result }
{
    let reading = Reading::new::<F>(geometry, shown)?;
    if frame.len() != geometry.frame_size() {
        return Err(Refusal::WrongLength);
    }
    Ok(reading.weigh(SILENT_LIMIT, frame))
}
