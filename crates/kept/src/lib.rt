// What a reel promises over any list of calls and of wear. Nothing here runs.
#![tactic(auto)]

ghost use Rattle.kept.specs.Statements.{KeptRecords, RecordsApart};

/// Through every list of calls and of wear, a record that the book keeps stands: its frame fits what is shown, a read returns
/// it, a mend restores it.
pub fn kept_records_stand()
    ensures { KeptRecords }
{}

/// Whatever a frame of a medium shows, no two different records have frames that fit it.
pub fn frames_hold_one_record()
    ensures { RecordsApart }
{}
