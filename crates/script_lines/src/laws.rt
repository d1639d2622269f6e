//! What is added are the fonts and images of one line more. Each function does nothing; its clause is the law.
ghost use Rattle.script_lines.specs.Stock.{AddsToStock, RefusesLine};

/// A line that is added to the fonts and images of some lines gives those of these lines and itself.
pub fn adds_to_stock()
    ensures { AddsToStock }
{}

/// A line that isn't added is refused by the grammar behind those lines, for the same cause.
pub fn refuses_line()
    ensures { RefusesLine }
{}
