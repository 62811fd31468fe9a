//! The check of a table.

ghost use Rattle.std.specs.Prelude.{◌≡◌, map, if◌then◌else◌, IfOk};
ghost use Rattle.spec_model.specs.Views.{spec_data};
ghost use Rattle.spec_model.specs.GameViews.{game_data};
ghost use Rattle.spec_model.specs.WellTyped.{WellTyped};
ghost use Rattle.hidden_game.specs.GameOf.{game_of};
ghost use Rattle.strategy_tables.specs.Views.{node_data, table_data};
ghost use Rattle.strategy_tables.specs.Games.{OfSystem, OfEnvironment, IsTableOf};
ghost use Rattle.table_check.specs.Ends.{check_end, Claims};
ghost use Rattle.table_check.specs.Turns.{AreJudges};
ghost use Rattle.table_check.specs.Nodes.{environment_data};

use crate::checker::Checker;
use crate::environment::Claim;
use crate::held::held_at_each;
use crate::judges::Judges;
use game_states::{all_inputs, all_outputs, count_all_inputs, count_all_outputs};
use hidden_game::expand;
use spec_model::spec::Spec;
use std::alloc::{AllocError, Global};
use strategy_tables::laws::sound_tables_win;
use strategy_tables::{Node, Table};

/// How a check ends.
#[derive(Clone, Copy)]
pub enum CheckEnd {
    /// Each rule holds: what the table claims is true.
    Sound,
    /// The first rule that fails, and the node where it does; 0 for a rule of the whole table.
    Flaw { rule: u8, node: u32 },
    /// The moves that rows are compared with are more than 1,024: the inputs for a system's table, the outputs for an
    /// environment's.
    Limit,
}

/// How many moves rows are compared with at most.
const MOST_MOVES: usize = 1024;

/// How a check ends whose last rule is this one, where the others hold.
pub fn last_end(holds: bool, rule: u8) -> CheckEnd
    ensures { result ≡ (if holds then CheckEnd.Sound else CheckEnd.Flaw rule 0) }
{
    if holds {
        CheckEnd::Sound
    } else {
        CheckEnd::Flaw { rule, node: 0 }
    }
}

/// How the check of a system's table ends.
fn check_system(
    alloc: Global,
    judges: &Judges,
    k: u64,
    first: &[u32],
    nodes: &[Node],
) -> Result<CheckEnd, AllocError>
    requires judges { AreJudges judges.now }
    requires table { IsTableOf (game_data judges.now.game) (OfSystem (record { k = k; first = first.now; nodes = map node_data nodes.now })) }
    ensures { IfOk result (λ end. end ≡ check_end (game_data judges.now.game) (OfSystem (record { k = k; first = first.now; nodes = map node_data nodes.now }))) }
{
    let game = &judges.game;
    if count_all_inputs(game) > MOST_MOVES {
        return Ok(CheckEnd::Limit);
    }
    let moves = all_inputs(alloc, game)?;
    let held = held_at_each(alloc, game, nodes)?;
    let checker = Checker {
        judges,
        moves: &moves,
        nodes,
        held: &held,
    };
    checker.system_end(alloc, k, first)
}

/// How the check of an environment's table ends.
fn check_environment(
    alloc: Global,
    judges: &Judges,
    claim: &Claim,
    nodes: &[Node],
) -> Result<CheckEnd, AllocError>
    requires judges { AreJudges judges.now }
    requires table { IsTableOf (game_data judges.now.game) (OfEnvironment (environment_data claim.now nodes.now)) }
    ensures { IfOk result (λ end. end ≡ check_end (game_data judges.now.game) (OfEnvironment (environment_data claim.now nodes.now))) }
{
    let game = &judges.game;
    if count_all_outputs(game) > MOST_MOVES {
        return Ok(CheckEnd::Limit);
    }
    let moves = all_outputs(alloc, game)?;
    let held = held_at_each(alloc, game, nodes)?;
    let checker = Checker {
        judges,
        moves: &moves,
        nodes,
        held: &held,
    };
    checker.environment_end(alloc, claim)
}

/// How the check of a table of the judges' game ends.
fn check_judged(alloc: Global, judges: &Judges, table: &Table) -> Result<CheckEnd, AllocError>
    requires judges { AreJudges judges.now }
    requires table { IsTableOf (game_data judges.now.game) (table_data table.now) }
    ensures { IfOk result (λ end. end ≡ check_end (game_data judges.now.game) (table_data table.now)) }
{
    match table {
        Table::System { k, first, nodes } => check_system(alloc, judges, *k, first, nodes),
        Table::Environment {
            n,
            m,
            reply,
            first,
            nodes,
        } => {
            let claim = Claim {
                n: *n,
                m: *m,
                reply,
                first,
            };
            check_environment(alloc, judges, &claim, nodes)
        }
    }
}

/// Whether a table meets its rules in the game of a specification. `Limit` comes first, then the rule of the first nodes, then
/// for each node in order its rules, then the rule that sums up. Where it is `Sound` the specification is realizable with the
/// table's k, or unrealizable with its n and m. `AllocError`: no memory was given.
pub fn check(alloc: Global, spec: &Spec, table: &Table) -> Result<CheckEnd, AllocError>
    requires typed { WellTyped (spec_data spec.now) }
    requires table { IsTableOf (game_of (spec_data spec.now)) (table_data table.now) }
    ensures exact { IfOk result (λ end. end ≡ check_end (game_of (spec_data spec.now)) (table_data table.now)) }
    ensures sound { IfOk result (λ end. end ≡ CheckEnd.Sound → Claims (spec_data spec.now) (table_data table.now)) }
{
    sound_tables_win();
    let game = expand(alloc, spec)?;
    let judges = Judges::make(alloc, game)?;
    check_judged(alloc, &judges, table)
}
