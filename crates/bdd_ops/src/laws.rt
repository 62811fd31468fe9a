//! Laws on the levels that functions read. These functions do nothing: their contracts are the laws.
//!
//! A caller that knows a root's function, as each call's `meaning` says it, knows by them which levels it doesn't read.

ghost use Rattle.std.specs.Prelude.{◌≢◌, ℕ, List};
ghost use Rattle.spec_model.specs.Diagrams.{Function};
ghost use Rattle.bdd_ops.specs.Reading.{ChoicesReadNoMore, QuantifiersReadLess, Ignores};

/// A level's bit reads no other level.
pub fn a_bit_reads_its_level()
    ensures { (level other : ℕ) → other ≢ level → Ignores other (λ s. s level) }
{}

/// Choices, `and`, `or` and `not` read no level that their arguments ignore.
pub fn choices_read_no_more()
    ensures { (level : ℕ) (f g h : Function) → ChoicesReadNoMore level f g h }
{}

/// Quantifiers read neither the levels of their list nor a level that their arguments ignore.
pub fn quantifiers_read_less()
    ensures { (level : ℕ) (levels : List ℕ) (f g : Function) → QuantifiersReadLess level levels f g }
{}
