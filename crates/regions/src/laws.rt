//! Laws over the sets that regions stand for. These functions do nothing: their contracts are the laws.

ghost use Rattle.spec_model.specs.Games.{GameData};
ghost use Rattle.spec_model.specs.Steps.{IsClosed};
ghost use Rattle.spec_model.specs.WellMade.{WellMade};
ghost use Rattle.regions.specs.Laws.{FormLattice, HaveComplements, AreKnownByStates, PredecessorsGrow, AreDual};

/// `none` is the least region and `all` the greatest; `and` and `or` are the greatest below two and the least above them.
pub fn regions_form_a_lattice()
    ensures { (g : GameData) → FormLattice g }
{}

/// `not` is the complement among the states of the game.
pub fn regions_have_complements()
    ensures { (g : GameData) → HaveComplements g }
{}

/// Sets with the same states are equal, so `same` tells whether two regions have the same states.
pub fn regions_are_known_by_their_states()
    ensures { AreKnownByStates }
{}

/// `pre_sys` and `pre_env` of a larger set are no smaller.
pub fn predecessors_grow()
    ensures { (g : GameData) → PredecessorsGrow g }
{}

/// The states outside of `pre_sys` of a set are `pre_env` of its complement, and the reverse; so at the start.
pub fn predecessors_are_dual()
    ensures { (g : GameData) → IsClosed g → AreDual g }
{}

/// A step from a state of a well-made game leads to a state of it.
pub fn well_made_games_are_closed()
    ensures { (g : GameData) → WellMade g → IsClosed g }
{}
