//! The layers of the side that wins a game.

ghost use Rattle.std.specs.Prelude.{◌≡◌, None, IfOk, IfErr};
ghost use Rattle.spec_model.specs.WellMade.{WellMade};
ghost use Rattle.regions.specs.Kept.{IsSameGame};
ghost use Rattle.solve.specs.Budgets.{SolverHalts};
ghost use Rattle.solve.specs.WinnerLaws.{EnvironmentForces};
ghost use Rattle.solve.specs.Solved.{IsSolved, IsOpposed};
ghost use Rattle.solve.specs.Verdicts.{AreNumbersOfGame};

use crate::answers::Numbers;
use gr1_env::{EnvLayers, solve_env};
use gr1_sys::{SysLayers, count_sys, solve_sys};
use regions::{Halt, Regions};
use std::alloc::Global;

/// The layers of the side that wins. All must be spent.
pub enum Solved<G: Regions> {
    /// The system wins.
    BySystem(SysLayers<G>),
    /// The environment wins.
    ByEnvironment(EnvLayers<G>),
}

/// The layers of the environment, which wins.
fn environment_layers<G: Regions>(alloc: Global, g: &mut G) -> Result<EnvLayers<G>, Halt>
    requires free { (G.kept g.old).jam ≡ None }
    requires made { WellMade (G.kept g.old).game }
    requires forces { EnvironmentForces (G.kept g.old).game }
    ensures solved { IfOk result (λ l. IsSolved (G.kept g.old) (G.kept g.new) (Solved.ByEnvironment l)) }
    ensures cause { IfErr result (SolverHalts G.kept (G.kept g.old)) }
    ensures keeps { IsSameGame (G.kept g.old) (G.kept g.new) }
{
    match solve_env(alloc, g) {
        Ok(Some(layers)) => Ok(layers),
        // One of the two wins each game.
        Ok(None) => unreachable!(),
        Err(halt) => Err(halt),
    }
}

/// The layers of the side that wins the game of these regions. `Budget`: the nodes ran out. `Memory`: none was given.
pub fn solve_game<G: Regions>(alloc: Global, g: &mut G) -> Result<Solved<G>, Halt>
    requires free { (G.kept g.old).jam ≡ None }
    requires made { WellMade (G.kept g.old).game }
    ensures solved { IfOk result (IsSolved (G.kept g.old) (G.kept g.new)) }
    ensures cause { IfErr result (SolverHalts G.kept (G.kept g.old)) }
    ensures keeps { IsSameGame (G.kept g.old) (G.kept g.new) }
{
    match solve_sys(alloc, g) {
        Ok(Some(layers)) => Ok(Solved::BySystem(layers)),
        Ok(None) => Ok(Solved::ByEnvironment(environment_layers(alloc, g)?)),
        Err(halt) => Err(halt),
    }
}

/// K where the system wins, of whose layers none is held; or the layers of the environment where it does, which must be spent.
pub enum Opposed<G: Regions> {
    /// The system wins, with K rounds.
    BySystem(u64),
    /// The environment wins.
    ByEnvironment(EnvLayers<G>),
}

/// The layers of the environment where it wins the game of these regions, else K. `Budget`: the nodes ran out. `Memory`: none was
/// given.
pub fn oppose_game<G: Regions>(alloc: Global, g: &mut G) -> Result<Opposed<G>, Halt>
    requires free { (G.kept g.old).jam ≡ None }
    requires made { WellMade (G.kept g.old).game }
    ensures opposed { IfOk result (IsOpposed (G.kept g.old) (G.kept g.new)) }
    ensures cause { IfErr result (SolverHalts G.kept (G.kept g.old)) }
    ensures keeps { IsSameGame (G.kept g.old) (G.kept g.new) }
{
    match count_sys(alloc, g) {
        Ok(Some(k)) => Ok(Opposed::BySystem(k)),
        Ok(None) => Ok(Opposed::ByEnvironment(environment_layers(alloc, g)?)),
        Err(halt) => Err(halt),
    }
}

/// The winner's numbers of the game of these regions. `Budget`: the nodes ran out. `Memory`: none was given.
pub fn game_numbers<G: Regions>(alloc: Global, g: &mut G) -> Result<Numbers, Halt>
    requires free { (G.kept g.old).jam ≡ None }
    requires made { WellMade (G.kept g.old).game }
    ensures numbers { IfOk result (AreNumbersOfGame (G.kept g.old).game) }
    ensures cause { IfErr result (SolverHalts G.kept (G.kept g.old)) }
{
    match oppose_game(alloc, g)? {
        Opposed::BySystem(k) => Ok(Numbers::Realizable { k }),
        Opposed::ByEnvironment(layers) => {
            let n = layers.n();
            let m = layers.m();
            layers.spend_all(g);
            Ok(Numbers::Unrealizable { n, m })
        }
    }
}
