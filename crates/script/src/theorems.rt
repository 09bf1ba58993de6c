// What is proved of the grammar. Nothing here runs.
ghost use Rattle.script.specs.Statements.{ReadOneWay, RefusedRightly};

/// A script begins with at most one command: two readings of it have the same bytes and leave the same rest.
pub fn reading_is_unique()
    ensures { ReadOneWay }
{}

/// A script that begins with a command gives no cause to refuse it.
pub fn refusals_are_right()
    ensures { RefusedRightly }
{}
