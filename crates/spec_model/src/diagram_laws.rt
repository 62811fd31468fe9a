//! Laws over the definitions of reduced diagrams. These functions do nothing: their contracts are the laws.

ghost use Rattle.spec_model.specs.Diagrams.{Diagram};
ghost use Rattle.spec_model.specs.DiagramReads.{DifferSomewhere};

/// Two different reduced diagrams differ on some list of truth values (Bryant 1986, canonical form).
pub fn different_diagrams_differ()
    ensures { (a b : Diagram) → DifferSomewhere a b }
{}
