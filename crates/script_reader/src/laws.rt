//! Laws of the definitions. Each function does nothing; its clause is the law.
ghost use Rattle.script_reader.specs.Few.{ManyWords};
ghost use Rattle.script_reader.specs.Laws.{EndsWithScript};

/// Bytes that begin with a script are split behind it.
pub fn splits_behind_script()
    ensures { EndsWithScript }
{}

/// A line with an empty word, or with more than 300 words, is of no form that may stand there.
pub fn many_words()
    ensures { ManyWords }
{}
