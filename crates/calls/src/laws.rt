// What is proved of every session's calls, each law on a function's contract: the check then asks for its proof.
ghost use Rattle.calls.specs.Laws.{BegunAll, Determined, OneReply, StoreInRun, TwoSessions};

/// Every call has exactly one event that is due after the calls before it.
pub fn determined()
    ensures { Determined }
{}

/// So every list of calls gets exactly one list of replies.
pub fn one_reply()
    ensures { OneReply }
{}

/// A run that goes on has begun as many statements as it was granted, so that sum is its count.
pub fn begun_all()
    ensures { BegunAll }
{}

/// Two sessions of a script, over stores of equal size, reply alike to every list of calls exactly where they opened on equal global stores.
pub fn two_sessions()
    ensures { TwoSessions }
{}

/// In a run the store holds what the copy rule's closing has with the statements granted so far.
pub fn store_in_run()
    ensures { StoreInRun }
{}
