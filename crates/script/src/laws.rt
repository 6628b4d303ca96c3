// What is proved of scripts and refusals, each law on a function's contract.
ghost use Rattle.script.specs.Laws.{AcceptedExactly, OneVerdict};
ghost use Rattle.script.specs.RefusalCases.{RefusalCases};

/// A sheet is refused for nothing exactly if it is a script, and for a number and a line exactly if its faults say so.
pub fn accepted_exactly()
    ensures { AcceptedExactly }
{}

/// Every sheet is a script or is refused, for one number and one line.
pub fn one_verdict()
    ensures { OneVerdict }
{}

/// Worked examples: a script, and what sheets that differ from it are refused for.
pub fn refusal_cases()
    ensures { RefusalCases }
{}
