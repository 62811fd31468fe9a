//! Lists of roots, made one after the other: where one is refused, all so far are given back.

ghost use Rattle.std.specs.Prelude.{◌≡◌, ◌+◌, ◌≤◌, ◌++◌, ◌∷◌, [], ℕ, Ok, Err, List};
ghost use Rattle.spec_model.specs.Diagrams.{Function};
ghost use Rattle.bdd_store.specs.State.{roots_at};
ghost use Rattle.bdd_bits.specs.Contents.{Contents};
ghost use Rattle.bdd_bits.specs.Calls.{SameNodes};
ghost use Rattle.bit_compile.specs.Making.{Makes};
ghost use Rattle.bdd_sets.specs.Lists.{MakesList, times_in};

use bdd_bits::{Diagrams, Root};
use regions::Halt;

/// Gives all roots back.
pub fn release_list(diagrams: &mut Diagrams, mut roots: Vec<Root>)
    requires { (n : ℕ) → times_in n roots.items ≤ roots_at diagrams.old.state n }
    ensures released { (n : ℕ) → roots_at diagrams.old.state n ≡ roots_at diagrams.new.state n + times_in n roots.items }
    ensures nodes { SameNodes diagrams.old diagrams.new }
{
    while let Some(root) = roots.pop() {
        diagrams.release(root);
    }
    roots.destroy_empty();
}

/// A list of roots, with one more that was just made. Where that was refused, or no memory is given, all are given back.
pub fn push_made(
    diagrams: &mut Diagrams,
    mut roots: Vec<Root>,
    made: Result<Root, Halt>,
) -> Result<Vec<Root>, Halt>
    requires { (base mid : Contents) × (fs : List Function) × (f : Function) × MakesList base mid (Ok roots) fs × Makes mid diagrams.old made f }
    ensures made { (base mid : Contents) (fs : List Function) (f : Function) → MakesList base mid (Ok roots) fs → Makes mid diagrams.old made f → MakesList base diagrams.new result (fs ++ f ∷ []) }
    ensures handed { result ≡ Err Halt.Budget → (made ≡ Err Halt.Budget) × (diagrams.new.state.table ≡ diagrams.old.state.table) }
{
    match made {
        Ok(root) => {
            if let Ok(()) = roots.reserve(1) {
                roots.push_reserved(root);
                return Ok(roots);
            }
            diagrams.release(root);
            release_list(diagrams, roots);
            Err(Halt::Memory)
        }
        Err(halt) => {
            release_list(diagrams, roots);
            Err(halt)
        }
    }
}
