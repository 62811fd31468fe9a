//! Where a tree may stand.

/// What a tree is judged as. The lines of a monitor stand as initial and safety guarantees. In a recurring line the role
/// makes no difference: a `next` is a fault there by itself.
#[derive(Clone, Copy, PartialEq, Eq)]
pub enum Stand {
    InitialAssumption,
    InitialGuarantee,
    SafetyAssumption,
    SafetyGuarantee,
    Recurring,
    /// A bound of a range.
    Bound,
    /// A bracketed expression of a trigger.
    Atom,
    /// An argument of a pattern's use.
    Argument,
    PatternInitial,
    PatternSafety,
    PatternRecurring,
    /// The body of a define.
    Define,
    /// The body of a predicate.
    Predicate,
}
