//! A law of written tables. The function does nothing; its clause is the law.
ghost use Rattle.table_turns.specs.Writes.{WrittenLaw};

/// Words that spell a table, in which the words of a row, of the cursor or of the stamp are set, spell the table with that
/// row, cursor or stamp.
pub fn tables_are_written()
    ensures { WrittenLaw }
{}
