//! The environment's layers, where they win.

ghost use Rattle.std.specs.Prelude.{◌≡◌, ℕ, [], None, IfOk, IfErr, IfSome, OnErr, MatchOption, map};
ghost use Rattle.spec_model.specs.Games.{GameData};
ghost use Rattle.regions.specs.Kept.{HoldsBesides, IsSameGame, Stays};
ghost use Rattle.gr1_law.specs.EnvLayers.{IsLayerCount};
ghost use Rattle.gr1_sys.specs.Held.{HasTogether, HoldsWithoutAll};
ghost use Rattle.gr1_env.specs.Held.{IsGiven, all_regions, last_z};
ghost use Rattle.gr1_env.specs.Solved.{IsForced, IsDropped, IsLost, HasWon, HasLost, WonByEnvironment};
ghost use Rattle.gr1_env.specs.Moment.{Moment};
ghost use Rattle.gr1_env.specs.Told.{AreGiven, AreOfOneMoment, TellsHalt, TellsLayers, TellsOneMoment};

use crate::givens::{Given, give, spend_given};
use crate::layering::{all_layers, last_layer};
use crate::layers::{EnvLayer, EnvLayers};
use crate::numbers::denials;
use crate::spending::spend_layers;
use regions::{Halt, Regions};
use std::alloc::Global;

/// The layers, where M is below 2^64. `Memory` where it isn't.
fn counted<G: Regions>(g: &mut G, layers: Vec<EnvLayer<G>>) -> Result<EnvLayers<G>, Halt>
    requires held { HasTogether (G.kept g.old) (all_regions layers.items) }
    ensures layers { IfOk result (λ l. l.layers.items ≡ layers.items) }
    ensures held { IfOk result (λ _. Stays (G.kept g.old) (G.kept g.new)) }
    ensures halted { OnErr result (HoldsWithoutAll (G.kept g.old) (G.kept g.new) (all_regions layers.items)) }
    ensures told { IfErr result (λ halt. (halt ≡ Halt.Memory) × ((G.kept g.new).jam ≡ (G.kept g.old).jam)) }
    ensures keeps { IsSameGame (G.kept g.old) (G.kept g.new) }
{
    if denials::<G>(&layers).is_some() {
        Ok(EnvLayers { layers })
    } else {
        spend_layers(g, layers);
        Err(Halt::Memory)
    }
}

/// The layers where the environment forces the first state into the last, else none.
fn decide<G: Regions>(
    g: &mut G,
    given: &Given<G>,
    layers: Vec<EnvLayer<G>>,
) -> Result<Option<EnvLayers<G>>, Halt>
    requires free { (G.kept g.old).jam ≡ None }
    requires given { IsGiven (G.kept g.old) given.now }
    requires held { HasTogether (G.kept g.old) (all_regions layers.items) }
    ensures decided { let k = G.kept g.old in let last = k.set (last_z given.now.none layers.items) in
        IfOk result (λ o. MatchOption o (IsDropped k (G.kept g.new) last (all_regions layers.items)) (λ l. (l.layers.items ≡ layers.items) × IsForced k (G.kept g.new) last)) }
    ensures halted { OnErr result (HoldsWithoutAll (G.kept g.old) (G.kept g.new) (all_regions layers.items)) }
    ensures told { let k = G.kept g.old in (game : GameData) (m : Moment) (n : ℕ) → k.game ≡ game → IsLayerCount m.layers n → k.set (last_z given.now.none layers.items) ≡ m.layers.z n → IfErr result (TellsHalt game k (G.kept g.new) m) }
    ensures keeps { IsSameGame (G.kept g.old) (G.kept g.new) }
{
    match g.start_env(last_layer::<G>(&given.none, &layers)) {
        Ok(true) => match counted(g, layers) {
            Ok(layers) => Ok(Some(layers)),
            Err(halt) => Err(halt),
        },
        Ok(false) => {
            spend_layers(g, layers);
            Ok(None)
        }
        Err(halt) => {
            spend_layers(g, layers);
            Err(halt)
        }
    }
}

/// The layers where the environment wins, else none.
fn winning<G: Regions>(
    alloc: Global,
    g: &mut G,
    given: &Given<G>,
) -> Result<Option<EnvLayers<G>>, Halt>
    requires free { (G.kept g.old).jam ≡ None }
    requires given { IsGiven (G.kept g.old) given.now }
    ensures won { let k = G.kept g.old in let misses = map k.set given.now.misses.items in let asms = map k.set given.now.asms.items in
        IfOk result (λ o. MatchOption o (HasLost k (G.kept g.new) misses asms) (λ l. HasWon k (G.kept g.new) misses asms l.layers.items)) }
    ensures halted { OnErr result (HoldsBesides (G.kept g.old) (G.kept g.new) []) }
    ensures told { let k = G.kept g.old in (game : GameData) → k.game ≡ game → AreGiven game (map k.set given.now.misses.items) (map k.set given.now.asms.items) → IfErr result (TellsLayers game k (G.kept g.new)) }
    ensures keeps { IsSameGame (G.kept g.old) (G.kept g.new) }
{
    let layers = all_layers(alloc, g, given)?;
    decide(g, given, layers)
}

/// The layers of the environment's winning states, which must be spent; none exactly where no legal first input has all its
/// legal first outputs in the last layer. Nothing else is held after the call than before.
///
/// `Budget`: a call of `g` answered it, and what it tells was held then are, besides what was held before, sets of one
/// moment: each hold has one value of Y, and each set is of its equations. `Memory`: none was given, or M passes 2^64 - 1.
pub fn solve_env<G: Regions>(alloc: Global, g: &mut G) -> Result<Option<EnvLayers<G>>, Halt>
    requires free { (G.kept g.old).jam ≡ None }
    ensures solved { let k = G.kept g.old in IfOk result (λ o. MatchOption o (IsLost k (G.kept g.new)) (λ l. (sets : _) × WonByEnvironment k (G.kept g.new) l.layers.items sets)) }
    ensures moment { let k = G.kept g.old in IfOk result (λ o. IfSome o (λ l. (sets : _) → WonByEnvironment k (G.kept g.new) l.layers.items sets → AreOfOneMoment k.game (G.kept g.new) l.layers.items sets)) }
    ensures halted { OnErr result (HoldsBesides (G.kept g.old) (G.kept g.new) []) }
    ensures told { IfErr result (TellsOneMoment (G.kept g.old) (G.kept g.new)) }
    ensures keeps { IsSameGame (G.kept g.old) (G.kept g.new) }
{
    let given = give(alloc, g)?;
    match winning(alloc, g, &given) {
        Ok(won) => {
            spend_given(g, given);
            Ok(won)
        }
        Err(halt) => {
            spend_given(g, given);
            Err(halt)
        }
    }
}
