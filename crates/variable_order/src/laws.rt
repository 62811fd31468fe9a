//! Laws on sizes. These functions do nothing: their contracts are the laws.

ghost use Rattle.std.specs.Prelude.{◌≡◌, ◌<◌, ◌⊎◌, ℕ, List};
ghost use Rattle.spec_model.specs.Diagrams.{Function};
ghost use Rattle.variable_order.specs.Sizes.{HasNodes};
ghost use Rattle.variable_order.specs.Climbing.{IsClimb};

/// Functions have one number of parts under an order.
pub fn one_number_of_parts()
    ensures { (widths order : List ℕ) (fs : List Function) (n m : ℕ) → HasNodes widths fs order n → HasNodes widths fs order m → n ≡ m }
{}

/// A climb ends where it began, or under another order with fewer parts, which it has.
pub fn a_climb_goes_down()
    ensures { (fixed : ℕ) (widths start last : List ℕ) (fs : List Function) (n k : ℕ) → HasNodes widths fs start n → IsClimb fixed widths fs start n last k → HasNodes widths fs last k × (((last ≡ start) × (k ≡ n)) ⊎ (k < n)) }
{}

/// All climbs from one order end at one order, with as many parts.
pub fn a_climb_ends_at_one_order()
    ensures { (fixed : ℕ) (widths start last other : List ℕ) (fs : List Function) (n k l : ℕ) → IsClimb fixed widths fs start n last k → IsClimb fixed widths fs start n other l → (last ≡ other) × (k ≡ l) }
{}
