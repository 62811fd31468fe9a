//! Laws over the definitions alone. These functions do nothing: their contracts are the laws.

ghost use Rattle.spectra_patterns.specs.Laws.{PatternIsTyped, TriggerIsTyped, ResolvedIsPutIn};

/// A pattern without a fault means one that is well typed.
pub fn pattern_is_typed()
    ensures { PatternIsTyped }
{}

/// So does a trigger.
pub fn trigger_is_typed()
    ensures { TriggerIsTyped }
{}

/// In an expression whose names stand for parts without parts alone, and none of whose names is misused, everything is put in
/// as it is written: so it is in a pattern's lines.
pub fn resolved_is_put_in()
    ensures { ResolvedIsPutIn }
{}
