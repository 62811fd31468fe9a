//! The next input: the first that forces the next state into the first set into which one can.

ghost use Rattle.std.specs.Prelude.{◌≡◌, ◌<◌, ◌+◌, ◌*◌, ◌≤◌, ℕ, suc, length, List};
ghost use Rattle.spec_model.specs.Values.{Assignment};
ghost use Rattle.spec_model.specs.Steps.{Before};
ghost use Rattle.spec_model.specs.Sets.{StateSet};
ghost use Rattle.regions.specs.declared.types.When.{When};
ghost use Rattle.regions.specs.Kept.{Move, Inputs, IsHeldAs, Stays, IsSameGame};
ghost use Rattle.regions.specs.Rules.{AreBefore, input_count};
ghost use Rattle.gr1_law.specs.EnvLayers.{EnvLayerSets};
ghost use Rattle.gr1_law.specs.Counter.{CounterMemory};
ghost use Rattle.counterstrategy.specs.Forced.{MovesLead, LeadSomewhere, IsFirstForced};
ghost use Rattle.counterstrategy.specs.Turns.{ServesTurn, rank_kept};

use crate::kit::Kit;
use crate::remembered::Remembered;
use regions::Regions;
use spec_model::value::Value;

/// Writes the first input that one of the moves gives; the number of that move from 1, and 0 where none gives any.
fn give_first<G: Regions>(
    g: &mut G,
    moves: &[G::Move],
    state: &[Value],
    input: &mut [Value],
) -> usize
    requires moves { LeadSomewhere (G.kept g.old) moves.now }
    requires room { length input.old ≡ input_count (G.kept g.old).game }
    ensures first { let k = G.kept g.old in (when : When) (sets : ℕ → StateSet) (b : Before) (r : ℕ) (x : Assignment) →
        MovesLead k when moves.now sets → AreBefore k.game when b state.now → IsFirstForced k.game when sets b r x → r < length moves.now → (input.new ≡ x) × (result ≡ suc r) }
    ensures room { length input.new ≡ length input.old }
    ensures held { Stays (G.kept g.old) (G.kept g.new) }
    ensures keeps { IsSameGame (G.kept g.old) (G.kept g.new) }
{
    for n in 0..moves.len() {
        if g.first_in(&moves[n], state, input) {
            return n + 1;
        }
    }
    0
}

/// Writes the first input that leads into an iterate; the number of that iterate. The first has no states: `none` leads into
/// it, and the other moves into those that follow.
fn give_in_hold<G: Regions>(
    g: &mut G,
    none: &G::Move,
    moves: &[G::Move],
    state: &[Value],
    input: &mut [Value],
) -> usize
    requires moves { (when : When) × (sets : ℕ → StateSet) × IsHeldAs (G.kept g.old) (Move none.now) (Inputs when (sets 0)) × MovesLead (G.kept g.old) when moves.now (λ r. sets (suc r)) }
    requires room { length input.old ≡ input_count (G.kept g.old).game }
    ensures first { let k = G.kept g.old in (when : When) (sets : ℕ → StateSet) (b : Before) (r : ℕ) (x : Assignment) →
        IsHeldAs k (Move none.now) (Inputs when (sets 0)) → MovesLead k when moves.now (λ r. sets (suc r)) → AreBefore k.game when b state.now → IsFirstForced k.game when sets b r x → r ≤ length moves.now → (input.new ≡ x) × (result ≡ r) }
    ensures room { length input.new ≡ length input.old }
    ensures held { Stays (G.kept g.old) (G.kept g.new) }
    ensures keeps { IsSameGame (G.kept g.old) (G.kept g.new) }
{
    if g.first_in(none, state, input) {
        0
    } else {
        give_first(g, moves, state, input)
    }
}

/// The number of the list of moves into a hold's iterates: by the layer's number from 1, the goal and the assumption aimed at.
fn chain_number<G: Regions>(kit: &Kit<G>, place: &Remembered) -> usize
    requires layer { (low : ℕ) × (place.now.layer ≡ suc low) × ((low * length kit.now.goals.items + place.now.goal) * length kit.now.asms.items + place.now.index < length kit.now.delays.items) }
    requires some { 0 < length kit.now.asms.items }
    ensures { (low : ℕ) → place.now.layer ≡ suc low → result ≡ (low * length kit.now.goals.items + place.now.goal) * length kit.now.asms.items + place.now.index }
{
    ((place.layer - 1) * kit.goals.len() + place.goal) * kit.asms.len() + place.index
}

/// Writes the input that is given at the place. After a denial it gives the number of the iterate into which that leads, after
/// a shift 0.
pub fn give<G: Regions>(g: &mut G, kit: &Kit<G>, place: &Remembered, input: &mut [Value]) -> usize
    requires turn { (e : EnvLayerSets) × (n : ℕ) × (counts : ℕ → ℕ → List ℕ) × (b : Before) × (m : CounterMemory) × (r : ℕ) × (x : Assignment) × ServesTurn (G.kept g.old) kit.now place.now e n counts b m r x }
    requires room { length input.old ≡ input_count (G.kept g.old).game }
    ensures given { let k = G.kept g.old in (e : EnvLayerSets) (n : ℕ) (counts : ℕ → ℕ → List ℕ) (b : Before) (m : CounterMemory) (r : ℕ) (x : Assignment) →
        ServesTurn k kit.now place.now e n counts b m r x → (input.new ≡ x) × (result ≡ rank_kept m r) }
    ensures room { length input.new ≡ length input.old }
    ensures held { Stays (G.kept g.old) (G.kept g.new) }
    ensures keeps { IsSameGame (G.kept g.old) (G.kept g.new) }
{
    let state = place.position.values();
    if place.denying {
        let chain = &kit.delays[chain_number(kit, place)];
        give_in_hold(g, &kit.later[0], chain, state, input)
    } else if place.position.started {
        give_first(g, &kit.later, state, input);
        0
    } else {
        give_first(g, &kit.first, state, input);
        0
    }
}
