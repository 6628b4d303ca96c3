// Theorems, each the contract of a function that does nothing. A function that calls one may use it.
ghost use Rattle.kind_laws.specs.Comparing.{ConstantsAreExact, EqualityIsOfNumbers, IndexesAreExact, OrderIsOfNumbers, ZeroIsConstant};
ghost use Rattle.kind_laws.specs.Dividing.{QuotientsAreNearest};
ghost use Rattle.kind_laws.specs.Fitting.{DifferencesAreExact, ProductsAreExact, SumsAreExact};
ghost use Rattle.kind_laws.specs.Rounding.{DifferencesRound, ProductsRound, QuotientsRound, SumsRound};

pub(crate) fn sums_round()
    ensures { SumsRound }
{}

pub(crate) fn differences_round()
    ensures { DifferencesRound }
{}

pub(crate) fn products_round()
    ensures { ProductsRound }
{}

pub(crate) fn quotients_round()
    ensures { QuotientsRound }
{}

pub(crate) fn equality_is_of_numbers()
    ensures { EqualityIsOfNumbers }
{}

pub(crate) fn order_is_of_numbers()
    ensures { OrderIsOfNumbers }
{}

pub(crate) fn constants_are_exact()
    ensures { ConstantsAreExact }
{}

pub(crate) fn zero_is_constant()
    ensures { ZeroIsConstant }
{}

pub(crate) fn indexes_are_exact()
    ensures { IndexesAreExact }
{}

pub(crate) fn sums_are_exact()
    ensures { SumsAreExact }
{}

pub(crate) fn differences_are_exact()
    ensures { DifferencesAreExact }
{}

pub(crate) fn products_are_exact()
    ensures { ProductsAreExact }
{}

pub(crate) fn quotients_are_nearest()
    ensures { QuotientsAreNearest }
{}
