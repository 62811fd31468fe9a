//! A law over the definitions alone. This function does nothing: its contract is the law.

ghost use Rattle.spectra_ranks.specs.Laws.{AcyclicHaveAnOrder};

/// Definitions none of which is used in its own body have an order, in which each stands behind those that it uses.
pub fn acyclic_have_an_order()
    ensures { AcyclicHaveAnOrder }
{}
