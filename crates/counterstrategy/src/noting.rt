//! What is remembered of a position, and its note.

ghost use Rattle.std.specs.Prelude.{◌≡◌, ◌<◌, ◌+◌, ℕ, length, map, IsTrue, if◌then◌else◌, get_or, ◌==◌};
ghost use Rattle.spec_model.specs.Games.{State, listed};
ghost use Rattle.spec_model.specs.GameViews.{goal_data};
ghost use Rattle.spec_model.specs.Steps.{is_state};
ghost use Rattle.spec_model.specs.Sets.{StateSet};
ghost use Rattle.regions.specs.Kept.{Stays, IsSameGame};
ghost use Rattle.gr1_law.specs.Layers.{IsLeastNumber, assumption_set, assumption_sets};
ghost use Rattle.gr1_law.specs.EnvLayers.{EnvLayerSets};
ghost use Rattle.gr1_law.specs.Counter.{CounterMemory, next_assumption};
ghost use Rattle.strategy_parts.specs.Owned.{RegionsAre, AreSomewhere};
ghost use Rattle.counterstrategy.specs.Places.{memory_at};
ghost use Rattle.strategy_parts.specs.Positions.{values_at};
ghost use Rattle.counterstrategy.specs.Settled.{tops, holds_in, settled_at, AreThere};
ghost use Rattle.counterstrategy.specs.Turns.{ServesReply};

use crate::kit::Kit;
use crate::remembered::Remembered;
use gr1_env::{EnvGoal, EnvLayer};
use regions::Regions;
use spec_model::game::{Goal, Label};
use spec_model::value::Value;

/// The number, from 0, of the first layer that has the state.
fn least_layer<G: Regions>(g: &mut G, layers: &[EnvLayer<G>], state: &[Value]) -> usize
    requires { AreSomewhere (G.kept g.old) (tops layers.now) }
    ensures least { let k = G.kept g.old in (sets : ℕ → StateSet) (s : State) (a : ℕ) → RegionsAre k (tops layers.now) sets → IsTrue (is_state k.game s) → listed s ≡ state.now →
        IsLeastNumber (λ n. IsTrue (sets n s)) a → a < length layers.now → result ≡ a }
    ensures held { Stays (G.kept g.old) (G.kept g.new) }
    ensures keeps { IsSameGame (G.kept g.old) (G.kept g.new) }
{
    for a in 0..layers.len() {
        if g.has(&layers[a].z, state) {
            return a;
        }
    }
    layers.len()
}

/// The number of the first goal whose hold has the state.
fn least_goal<G: Regions>(g: &mut G, goals: &[EnvGoal<G>], state: &[Value]) -> usize
    requires { AreSomewhere (G.kept g.old) (holds_in goals.now) }
    ensures least { let k = G.kept g.old in (sets : ℕ → StateSet) (s : State) (j : ℕ) → RegionsAre k (holds_in goals.now) sets → IsTrue (is_state k.game s) → listed s ≡ state.now →
        IsLeastNumber (λ n. IsTrue (sets n s)) j → j < length goals.now → result ≡ j }
    ensures held { Stays (G.kept g.old) (G.kept g.new) }
    ensures keeps { IsSameGame (G.kept g.old) (G.kept g.new) }
{
    for j in 0..goals.len() {
        if g.has(&goals[j].y, state) {
            return j;
        }
    }
    goals.len()
}

/// The layer, by its number from 1, the goal and the assumption aimed at of a new position: after a denial the same.
fn aim<G: Regions>(g: &mut G, layers: &[EnvLayer<G>], place: &Remembered) -> (usize, usize, usize)
    requires { (kit : Kit _ _ _) × (e : EnvLayerSets) × (m : CounterMemory) × (s : State) × (next : CounterMemory) × ServesReply (G.kept g.old) layers.now kit place.now e m s next }
    ensures aim { let k = G.kept g.old in (kit : Kit _ _ _) (e : EnvLayerSets) (m : CounterMemory) (s : State) (next : CounterMemory) → ServesReply k layers.now kit place.now e m s next →
        (result.0 ≡ next.layer) × (result.1 ≡ next.goal) × (result.2 ≡ next.before) }
    ensures held { Stays (G.kept g.old) (G.kept g.new) }
    ensures keeps { IsSameGame (G.kept g.old) (G.kept g.new) }
{
    if place.denying {
        (place.layer, place.goal, place.index)
    } else {
        let state = place.position.values();
        let low = least_layer(g, layers, state);
        let goal = least_goal(g, &layers[low].goals, state);
        (low + 1, goal, 0)
    }
}

/// The assumption that is aimed at from a state on: once the present one holds, the next.
fn next_index<G: Regions>(g: &mut G, asms: &[G::R], before: usize, state: &[Value]) -> usize
    requires before { before < length asms.now }
    requires asms { AreSomewhere (G.kept g.old) asms.now }
    ensures index { let k = G.kept g.old in (s : State) → RegionsAre k asms.now (assumption_set k.game) → length asms.now ≡ length (assumption_sets k.game) →
        IsTrue (is_state k.game s) → listed s ≡ state.now → result ≡ (if assumption_set k.game before s then next_assumption k.game before else before) }
    ensures held { Stays (G.kept g.old) (G.kept g.new) }
    ensures keeps { IsSameGame (G.kept g.old) (G.kept g.new) }
{
    if !g.has(&asms[before], state) {
        before
    } else if before + 1 == asms.len() {
        0
    } else {
        before + 1
    }
}

/// Remembers the position that the place is after, by its layer, its goal and the assumption aimed at when it came.
pub fn settle<G: Regions>(
    g: &mut G,
    kit: &Kit<G>,
    place: &mut Remembered,
    layer: usize,
    goal: usize,
    before: usize,
)
    requires { AreThere (G.kept g.old) kit.now goal before }
    ensures settled { let k = G.kept g.old in (s : State) → IsTrue (is_state k.game s) → listed s ≡ values_at place.old.position → memory_at place.new ≡ settled_at k.game s layer goal before }
    ensures position { place.new.position ≡ place.old.position }
    ensures held { Stays (G.kept g.old) (G.kept g.new) }
    ensures keeps { IsSameGame (G.kept g.old) (G.kept g.new) }
{
    let state = place.position.values();
    let denying = !g.has(&kit.goals[goal], state);
    let index = next_index(g, &kit.asms, before, state);
    place.remember(denying, layer, goal, before, index);
}

/// Remembers the position that the place is after.
pub fn note_position<G: Regions>(
    g: &mut G,
    layers: &[EnvLayer<G>],
    kit: &Kit<G>,
    place: &mut Remembered,
)
    requires { (e : EnvLayerSets) × (m : CounterMemory) × (s : State) × (next : CounterMemory) × ServesReply (G.kept g.old) layers.now kit.now place.old e m s next }
    ensures noted { let k = G.kept g.old in (e : EnvLayerSets) (m : CounterMemory) (s : State) (next : CounterMemory) → ServesReply k layers.now kit.now place.old e m s next → memory_at place.new ≡ next }
    ensures position { place.new.position ≡ place.old.position }
    ensures held { Stays (G.kept g.old) (G.kept g.new) }
    ensures keeps { IsSameGame (G.kept g.old) (G.kept g.new) }
{
    let (layer, goal, before) = aim(g, layers, place);
    settle(g, kit, place, layer, goal, before);
}

/// The label of a goal.
pub fn label_of(goals: &[Goal], j: usize) -> Label
    requires { j < length goals.now }
    ensures { (none : Label) → result ≡ get_or (map (λ goal. goal.label) (map goal_data goals.now)) j none }
{
    goals[j].label
}
