// The theory of the code, over every field that keeps the laws. Nothing here runs.
#![tactic(auto)]

ghost use Rattle.algebra.specs.Statements.{FrameUnique, FitUnique, RecordsApart, ExactFits, FitsHigher};

/// A record has at most one frame.
pub fn frame_is_unique()
    ensures { FrameUnique }
{}

/// Whatever is shown, two frames that fit it are one frame, under every silent limit.
pub fn fit_is_unique()
    ensures { FitUnique }
{}

/// Whatever is shown, no two different records have frames that fit it.
pub fn records_stay_apart()
    ensures { RecordsApart }
{}

/// A frame that is shown exactly fits, with all three counts 0.
pub fn exact_showing_fits()
    ensures { ExactFits }
{}

/// What fits under a silent limit fits under every higher one.
pub fn higher_limit_fits()
    ensures { FitsHigher }
{}
