//! Laws of functions that tell sets of states. These functions do nothing: their contracts are the laws.

ghost use Rattle.std.specs.Prelude.{ℕ, List};
ghost use Rattle.spec_model.specs.Diagrams.{Function};
ghost use Rattle.spec_model.specs.Games.{GameData};
ghost use Rattle.spec_model.specs.Sets.{StateSet, all_states};
ghost use Rattle.game_values.specs.declared.seen.At.{At};
ghost use Rattle.bit_compile.specs.Domains.{state_domains};
ghost use Rattle.bit_compile.specs.Proper.{proper};
ghost use Rattle.bdd_sets.specs.StateBits.{Tells};
ghost use Rattle.bdd_sets.specs.Laws.{OperationsTell, AreOneTogether, MovesToNext};

/// Conjunction, disjunction and the choice against the proper states tell what sets have in common, what they have
/// together, and what is left.
pub fn operations_tell()
    ensures { (g : GameData) (at : At) (f h : Function) (t u : StateSet) → OperationsTell g at f h t u }
{}

/// Two sets are one exactly where the functions that tell them are.
pub fn are_one_together()
    ensures { (g : GameData) (at : At) (f h : Function) (t u : StateSet) (first : Tells g at f t) (second : Tells g at h u) → AreOneTogether g at f h t u first second }
{}

/// A set that is told at the present bits is told at the next ones by the function with its levels moved.
pub fn moves_to_next()
    ensures { (g : GameData) (to : List ℕ) (f : Function) (t : StateSet) → MovesToNext g to f t }
{}

/// The bits that have the code of a value in each slot are those of the states, of all and of no other.
pub fn proper_bits_are_states()
    ensures { (g : GameData) (at : At) → Tells g at (proper (state_domains g) at) (all_states g) }
{}
