//! The winner's strategy, by its layers.

ghost use Rattle.std.specs.Prelude.{◌≡◌, None, IfOk, IfErr};
ghost use Rattle.spec_model.specs.Syntax.{Specification};
ghost use Rattle.spec_model.specs.Agreement.{Agrees};
ghost use Rattle.spec_model.specs.Laws.{NumbersRise};
ghost use Rattle.hidden_game.specs.GameOf.{game_of};
ghost use Rattle.gr1_law.specs.Layers.{LayerSets};
ghost use Rattle.gr1_law.specs.EnvLayers.{EnvLayerSets};
ghost use Rattle.controller.specs.Made.{AreLayersOf};
ghost use Rattle.solve.specs.Budgets.{PlayHalts};
ghost use Rattle.solve.specs.Winners.{IsWonGame, IsLostGame};
ghost use Rattle.solve.specs.Solved.{AreEnvLayersOf};
ghost use Rattle.solve.specs.Verdicts.{IsPlayFor, IsCounterplayFor};

use controller::Controller;
use counterstrategy::Counterstrategy;
use gr1_env::EnvLayers;
use gr1_sys::SysLayers;
use regions::{Halt, MakeRefusal, Regions};
use std::alloc::Global;

/// K, and the system's strategy, which has made no move. `Budget`: the nodes ran out. `Memory`: none was given.
pub fn system_play<G: Regions + Drop>(
    alloc: Global,
    g: G,
    layers: SysLayers<G>,
) -> Result<(u64, Controller<G>), Halt>
    requires free { (G.kept g).jam ≡ None }
    requires won { (l : LayerSets) × AreLayersOf (G.kept g) layers.z layers.goals.items l }
    ensures cause { IfErr result (PlayHalts G.kept (G.kept g)) }
    ensures won { IfOk result (λ p. IsWonGame (G.kept g).game p.0) }
    ensures plays { IfOk result (λ p. (s : Specification) → (G.kept g).game ≡ game_of s → Agrees s (G.kept g).game → IsPlayFor G.kept s p.0 p.1) }
{
    let k = layers.k();
    match Controller::make(alloc, g, layers) {
        Ok(play) => Ok((k, play)),
        Err(MakeRefusal { halt, g: _g }) => Err(halt),
    }
}

/// N, M, and the environment's strategy, which has given no input. `Budget`: the nodes ran out. `Memory`: none was given.
pub fn environment_play<G: Regions + Drop>(
    alloc: Global,
    g: G,
    layers: EnvLayers<G>,
) -> Result<(u64, u64, Counterstrategy<G>), Halt>
    requires free { (G.kept g).jam ≡ None }
    requires lost { (e : EnvLayerSets) × AreEnvLayersOf (G.kept g) layers.layers.items e }
    ensures cause { IfErr result (PlayHalts G.kept (G.kept g)) }
    ensures lost { IfOk result (λ p. IsLostGame (G.kept g).game p.0 p.1) }
    ensures plays { IfOk result (λ p. (s : Specification) → (G.kept g).game ≡ game_of s → Agrees s (G.kept g).game → NumbersRise s.lines → IsCounterplayFor G.kept s p.0 p.1 p.2) }
{
    let n = layers.n();
    let m = layers.m();
    match Counterstrategy::make(alloc, g, layers) {
        Ok(play) => Ok((n, m, play)),
        Err(MakeRefusal { halt, g: _g }) => Err(halt),
    }
}
