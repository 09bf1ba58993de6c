// Frames worked by hand, shown of the definitions. Nothing here runs.
#![tactic(auto)]

ghost use Rattle.worked.specs.List.{Worked};

/// The worked frames, all of them.
pub fn worked_frames_stand()
    ensures { Worked }
{}
