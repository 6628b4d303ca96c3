// What is proved of reports, on a function's contract: the check then asks for its proof.
ghost use Rattle.field.specs.Report.{OneReport};

/// Every text and store has exactly one report, and exactly one list of words in the store after it.
pub fn one_report()
    ensures { OneReport }
{}
