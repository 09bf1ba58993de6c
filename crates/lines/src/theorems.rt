// What is proved of the figures in a line. Nothing here runs.
ghost use Rattle.lines.specs.Statements.{Decimals, Symbols};

/// Decimal figures read as their number, and only 0 begins with a 0.
pub fn decimals_read_back()
    ensures { Decimals }
{}

/// Two hexadecimal digits, in upper case, read as their symbol.
pub fn symbols_read_back()
    ensures { Symbols }
{}
