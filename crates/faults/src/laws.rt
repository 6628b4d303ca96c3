// What is proved of faults and endings, each law on a function's contract: the check then asks for its proof.
ghost use Rattle.faults.specs.Endings.{EndingsTold};
ghost use Rattle.faults.specs.Known.{ClosingsKnown};

// An ending is told by the copy rule's.
pub fn endings_told()
    ensures { EndingsTold }
{}

// No closing of a script's run has a fault but 21 to 25, so the copy rule's is told by an ending too.
pub fn closings_known()
    ensures { ClosingsKnown }
{}
