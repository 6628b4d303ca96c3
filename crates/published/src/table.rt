// The table of cases, as the contract of a function: the check then asks for its proof.
ghost use Rattle.published.specs.Cases.{Published};
ghost use Rattle.published.specs.Quotients.{QuotientsTold};
ghost use Rattle.published.specs.Scopes.{ToldApart};
ghost use Rattle.published.specs.Session.{SessionsTold};

/// The cases that are published with the sample card: the card as it is read, its runs by the copy rule, and values of the number kinds.
pub fn published_cases()
    ensures { Published }
{}

/// Small scripts that tell wrong rules apart.
pub fn scope_cases()
    ensures { ToldApart }
{}

/// Sessions of the double sheet: what is replied to each of their calls, and the words that its globals hold then.
pub fn session_cases()
    ensures { SessionsTold }
{}

/// Quotients of whole numbers: the nearest, ties, and zero divisors.
pub fn quotient_cases()
    ensures { QuotientsTold }
{}
