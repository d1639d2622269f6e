//! Laws of the definitions. Each function does nothing; its clause is the law.
ghost use Rattle.script_grammar.specs.Laws.{ReadsAsPrinted, PrintedOnce, KeepsLimits, KeepsStock, FirstBad, NothingBehind, NoFront, ToldByShape};

/// The bytes that read as a session are those that it is printed as, and the session is within the limits.
pub fn reads_as_printed()
    ensures { ReadsAsPrinted }
{}

/// Two sessions within the limits that are printed alike are the same.
pub fn printed_once()
    ensures { PrintedOnce }
{}

/// A session within the limits has at most 8 fonts, 64 images and, for each client, 65,536 calls.
pub fn keeps_limits()
    ensures { KeepsLimits }
{}

/// Some script begins with the lines before the first bad one, and none with these and the bad one; but for a last line that
/// isn't ended.
pub fn first_bad()
    ensures { FirstBad }
{}

/// Bytes behind a script are bad at the line behind its last.
pub fn nothing_behind()
    ensures { NothingBehind }
{}

/// A script that is cut off is none.
pub fn no_front()
    ensures { NoFront }
{}

/// The lines of fonts, glyphs and images make fonts and images.
pub fn keeps_stock()
    ensures { KeepsStock }
{}

/// A line has the cause `form` exactly where it isn't of a form that may stand there, by its fixed words and its number of
/// words.
pub fn told_by_shape()
    ensures { ToldByShape }
{}
