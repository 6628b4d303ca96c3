// What is proved of the copy rule, each law on a function's contract: the check then asks for its proof.
ghost use Rattle.rule.specs.Agreement.{AcceptedAgrees};
ghost use Rattle.rule.specs.Count.{Counted, Stays};
ghost use Rattle.rule.specs.Fine.{MachineAgrees};
ghost use Rattle.rule.specs.FreshNames.{FreshNeverShows};
ghost use Rattle.rule.specs.Handed.{HandedOver, StoresReadLawfully};
ghost use Rattle.rule.specs.Laws.{Agrees};
ghost use Rattle.rule.specs.Lawful.{StaysLawful};
ghost use Rattle.rule.specs.Local.{ClosingsAlike, GlobalsSuffice, Local};
ghost use Rattle.rule.specs.Resume.{Resumes};
ghost use Rattle.rule.specs.Tidy.{NumbersFit, StaysTidy};

/// A run by the rule always has exactly one outcome, and rewriting the text that is left gives it.
pub fn rule_agrees()
    ensures { Agrees }
{}

/// With more allowance a run that is not stopped closes as it did.
pub fn more_allowance_changes_nothing()
    ensures { Stays }
{}

/// A run is not stopped exactly if its allowance reaches the rule's own count, of which there is at most one.
pub fn counted()
    ensures { Counted }
{}

/// A machine that keeps addresses and environments, and replaces no text, halts as the rule does on every text whose names are in order.
pub fn machine_agrees()
    ensures { MachineAgrees }
{}

/// That machine halts as the rule does on every script, for every kind, size, allowance and store that takes every put.
pub fn accepted_agrees()
    ensures { AcceptedAgrees }
{}

/// Where the rule's fresh names start, above all names of the script, does not show in how a run halts.
pub fn fresh_never_shows()
    ensures { FreshNeverShows }
{}

/// Running n statements and then m more is running n + m, for the machine over every store.
pub fn resumes()
    ensures { Resumes }
{}

/// Cells that are not in use do not matter to the machine.
pub fn runs_locally()
    ensures { Local }
{}

/// How a script's run by the rule ends, and the globals after it, depends on the globals before it alone, whatever the other cells hold.
pub fn globals_suffice()
    ensures { GlobalsSuffice }
{}

/// From stores that agree on the globals a script closes alike, and is over with the same allowances.
pub fn closings_alike()
    ensures { ClosingsAlike }
{}

/// What waits in a machine's run is at falling levels up to 512, so there are at most 513 statements of it, with cells in use that the size has.
pub fn stays_tidy()
    ensures { StaysTidy }
{}

/// What waits in a run of a sheet's text is at falling levels up to 512: at most 513 statements, with cells in use that the size has.
pub fn numbers_fit()
    ensures { NumbersFit }
{}

/// From lawful words in the globals' cells, a script's run keeps lawful words in the cells in use, and works lawful values only.
pub fn stays_lawful()
    ensures { StaysLawful }
{}

/// Neither the store that is handed over nor the rule's own makes an unlawful word of lawful ones.
pub fn stores_read_lawfully()
    ensures { StoresReadLawfully }
{}

/// From lawful words in the globals' cells, a script runs over a store that is handed over as over the rule's own.
pub fn handed_over()
    ensures { HandedOver }
{}
