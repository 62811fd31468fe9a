//! Laws over the definitions alone. These functions do nothing: their contracts are the laws.

ghost use Rattle.std.specs.Prelude.{◌≡◌, true};
ghost use Rattle.spec_model.specs.Syntax.{Specification, TriggerData};
ghost use Rattle.spec_model.specs.WellTyped.{is_typed_trigger};
ghost use Rattle.trigger_dfa.specs.Narrow.{IsNarrow};
ghost use Rattle.trigger_dfa.specs.Laws.{NoneIsMissed, WrittenOutReads, GoalIsNotPending};

/// A repetition without an upper number misses no match, although it looks at finitely many numbers of pieces.
pub fn none_is_missed()
    ensures { NoneIsMissed }
{}

/// An expression and the one with its repeats written out match the same stretches.
pub fn written_out_reads()
    ensures { WrittenOutReads }
{}

/// On every run the entry, read with the values along it, tells that no effect is pending.
pub fn goal_is_not_pending()
    ensures { GoalIsNotPending }
{}

/// Each trigger of a well-typed specification is within the limits of `build`.
pub fn typed_triggers_are_narrow()
    ensures { (s : Specification) (t : TriggerData) → is_typed_trigger s t ≡ true → IsNarrow t }
{}
