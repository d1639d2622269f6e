//! Laws of the definitions. Each function does nothing; its clause is the law.
ghost use Rattle.script_names.specs.Laws.{StandsForLatest, StandsForNone};

/// A name stands for the slot of its latest create that was answered Created.
pub fn stands_for_latest()
    ensures { StandsForLatest }
{}

/// A name that no create was answered Created for stands for slot 32.
pub fn stands_for_none()
    ensures { StandsForNone }
{}
