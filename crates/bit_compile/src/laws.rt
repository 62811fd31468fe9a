//! Laws on the bits of states. These functions do nothing: their contracts are the laws.

ghost use Rattle.std.specs.Prelude.{◌≡◌, List, true};
ghost use Rattle.spec_model.specs.Syntax.{Formula};
ghost use Rattle.spec_model.specs.WellMade.{WellMade, scope_of, is_step_formula};
ghost use Rattle.spec_model.specs.Values.{DomainData};
ghost use Rattle.spec_model.specs.Games.{GameData, State};
ghost use Rattle.bit_compile.specs.CodeLaws.{OneState, IsListed};
ghost use Rattle.bit_compile.specs.Compiled.{compiled};
ghost use Rattle.bit_compile.specs.CompileLaws.{IsFormulaOf};

/// Bits are those of at most one state: different states have different bits.
pub fn bits_are_of_one_state()
    ensures { (ds : List DomainData) → OneState ds }
{}

/// A state, as a list, is a value of each of the domains that its bits are of.
pub fn states_have_bits()
    ensures { (g : GameData) (s : State) → IsListed g s }
{}

/// The function of a well-made formula is its value at the bits of a state and the next one, and it reads no other levels.
pub fn compiled_is_the_formula()
    ensures { (g : GameData) (e : Formula) → WellMade g → is_step_formula (scope_of g) e ≡ true → IsFormulaOf g e (compiled g e) }
{}
