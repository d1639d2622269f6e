//! Laws of the layout. Each function does nothing; its clause is the law.
ghost use Rattle.region_table.specs.Numbers.{KindLaw};
ghost use Rattle.region_table.specs.Spelling.{SpellingLaw};
ghost use Rattle.region_table.specs.Published.{PublishedLaw};
ghost use Rattle.region_table.specs.Opening.{OpeningLaw};

/// Where each word that says something is that of a table, the words are read as that table. So two tables are equal
/// where all words that say something are.
pub fn table_of_its_words()
    ensures { SpellingLaw }
{}

/// The table of a state tells who owns each pixel, where each slot's origin is, and whose each slot is, as the state's
/// windows do.
pub fn table_tells_windows()
    ensures { PublishedLaw }
{}

/// The words that a screen opens with are read as a table without windows, and that is the table of the opening state.
pub fn opening_table_of_words()
    ensures { OpeningLaw }
{}

/// But for the gate, each word is a table word, or it is a saved word or a framebuffer word.
pub fn words_are_of_one_kind()
    ensures { KindLaw }
{}
