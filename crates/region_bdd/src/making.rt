//! Making the object: its own diagrams, part by part. Where a part is refused, those before it are given back.

ghost use Rattle.std.specs.Prelude.{◌≡◌, ◌<◌, ◌≤◌, false, [], None, Err, IfOk, IfSome};
ghost use Rattle.spec_model.specs.GameViews.{game_data};
ghost use Rattle.spec_model.specs.WellMade.{WellMade};
ghost use Rattle.bit_compile.specs.Domains.{state_domains, level_count};
ghost use Rattle.bdd_bits.specs.Contents.{IsDeclared};
ghost use Rattle.bdd_sets.specs.Forcing.{AreLevelsOf};
ghost use Rattle.bdd_sets.specs.NextOrders.{FitsNext};
ghost use Rattle.region_bdd.specs.Slots.{kept_in};
ghost use Rattle.region_bdd.specs.Object.{roots_of_own};
ghost use Rattle.region_bdd.specs.Making.{MakesPart, times_in_sets, FitSets, times_in_goals, FitAllGoals};
ghost use Rattle.region_bdd.specs.Making.{times_in_lines, FitAllLines, times_in_formulas, FitFormulas, FitOwn};
ghost use Rattle.bit_compile.specs.Named.{IsOfProper};
ghost use Rattle.bdd_sets.specs.NamedGame.{IsOfGame};
ghost use Rattle.region_bdd.specs.Needs.{need_of_game};
ghost use Rattle.region_bdd.specs.Crowding.{IsTooSmall};
ghost use Rattle.region_bdd.specs.Object.{FitsOwnEarly};
ghost use Rattle.region_bdd.specs.Room.{IsRoom, member_count, early_count};
ghost use Rattle.region_bdd.specs.Seen.{seen};

use crate::ending::{release_members, release_own};
use crate::object::RegionBdd;
use crate::ordering::{is_moved, order_of};
use crate::own::Own;
use crate::search::Search;
use crate::slots::Slots;
use bdd_bits::{Diagrams, Root};
use bdd_products::early::Early;
use bdd_sets::forcing::StepRoots;
use bdd_sets::goals::goal_roots;
use bdd_sets::levels::next_levels;
use bdd_sets::lists::release_list;
use bdd_sets::members::{first_members, later_members};
use bdd_sets::moves::{Members, NextLevels};
use bit_compile::proper::proper;
use bit_compile::steps::constant;
use bit_compile::{Codes, OutOfMemory};
use game_values::seen::At;
use regions::{Halt, When};
use spec_model::game::Game;
use std::alloc::{AllocError, Global};

/// All states and no state, at the present bits.
fn sets(diagrams: &mut Diagrams, codes: &Codes) -> Result<(Root, Root), Halt>
    requires { level_count codes.now ≤ diagrams.old.state.table.levels }
    ensures { MakesPart times_in_sets (FitSets codes.now) (IsOfProper codes.now At.Now) diagrams.old diagrams.new result }
{
    let all = proper(diagrams, codes, At::Now)?;
    match constant(diagrams, false) {
        Ok(nothing) => Ok((all, nothing)),
        Err(halt) => {
            diagrams.release(all);
            Err(halt)
        }
    }
}

/// The recurring assumptions and the recurring guarantees.
fn goals(
    diagrams: &mut Diagrams,
    codes: &Codes,
    game: &Game,
) -> Result<(Vec<Root>, Vec<Root>), Halt>
    requires made { WellMade (game_data game.now) }
    requires codes { codes.now ≡ state_domains (game_data game.now) }
    requires levels { level_count codes.now ≤ diagrams.old.state.table.levels }
    ensures { let g = game_data game.now in
        MakesPart times_in_goals (FitAllGoals g) (IsOfGame g) diagrams.old diagrams.new result }
{
    let assume = goal_roots(diagrams, codes, game, &game.assume)?;
    match goal_roots(diagrams, codes, game, &game.goals) {
        Ok(guaranteed) => Ok((assume, guaranteed)),
        Err(halt) => {
            release_list(diagrams, assume);
            Err(halt)
        }
    }
}

/// The lines of first moves and those of later ones.
fn lines(
    diagrams: &mut Diagrams,
    codes: &Codes,
    game: &Game,
    levels: &NextLevels,
) -> Result<(Members, Members), Halt>
    requires made { WellMade (game_data game.now) }
    requires codes { codes.now ≡ state_domains (game_data game.now) }
    requires fits { FitsNext (game_data game.now) levels.now.to.items diagrams.old }
    requires lists { AreLevelsOf (game_data game.now) levels.now }
    ensures { let g = game_data game.now in
        MakesPart times_in_lines (FitAllLines g levels.now.to.items) (IsOfGame g) diagrams.old diagrams.new result }
{
    let first = first_members(diagrams, codes, game, levels)?;
    match later_members(diagrams, codes, game, levels) {
        Ok(later) => Ok((first, later)),
        Err(halt) => {
            release_members(diagrams, first);
            Err(halt)
        }
    }
}

/// The goals, and the lines.
fn formulas(
    diagrams: &mut Diagrams,
    codes: &Codes,
    game: &Game,
    levels: &NextLevels,
) -> Result<((Vec<Root>, Vec<Root>), (Members, Members)), Halt>
    requires made { WellMade (game_data game.now) }
    requires codes { codes.now ≡ state_domains (game_data game.now) }
    requires fits { FitsNext (game_data game.now) levels.now.to.items diagrams.old }
    requires lists { AreLevelsOf (game_data game.now) levels.now }
    ensures { let g = game_data game.now in
        MakesPart times_in_formulas (FitFormulas g levels.now.to.items) (IsOfGame g) diagrams.old diagrams.new result }
{
    let (assume, guaranteed) = goals(diagrams, codes, game)?;
    match lines(diagrams, codes, game, levels) {
        Ok(both) => Ok(((assume, guaranteed), both)),
        Err(halt) => {
            release_list(diagrams, assume);
            release_list(diagrams, guaranteed);
            Err(halt)
        }
    }
}

/// The diagrams that an object keeps for itself, with the products of later lines where there is room, in groups if they are
/// asked for, which is under no declared order. `Budget`: the store held its budget of nodes, and an operation needed each of
/// them. `Memory`: none was given. Neither changes what is kept.
fn own(
    diagrams: &mut Diagrams,
    alloc: Global,
    codes: &Codes,
    game: &Game,
    levels: &NextLevels,
    grouped: bool,
) -> Result<Own, Halt>
    requires made { WellMade (game_data game.now) }
    requires codes { codes.now ≡ state_domains (game_data game.now) }
    requires fits { FitsNext (game_data game.now) levels.now.to.items diagrams.old }
    requires lists { AreLevelsOf (game_data game.now) levels.now }
    requires named { IsDeclared diagrams.old → grouped ≡ false }
    ensures part { let g = game_data game.now in
        MakesPart roots_of_own (FitOwn g levels.now.to.items) (IsOfGame g) diagrams.old diagrams.new result }
    ensures early { IfOk result (λ own. FitsOwnEarly levels.now diagrams.new own) }
{
    let (all, nothing) = sets(diagrams, codes)?;
    match formulas(diagrams, codes, game, levels) {
        Ok(parts) => {
            let ((assume, guaranteed), (first, later)) = parts;
            let early = Early::make(diagrams, alloc, &later, levels, grouped);
            Ok(Own {
                step: StepRoots {
                    nothing,
                    proper: all,
                    later,
                },
                assume,
                goals: guaranteed,
                first,
                early,
            })
        }
        Err(halt) => {
            diagrams.release(all);
            diagrams.release(nothing);
            Err(halt)
        }
    }
}

/// Place for the lines of a move and one diagram more, if there is a number for it.
fn place_for(members: &Members) -> Option<u32>
    ensures { IfSome result (λ most. member_count members.now < most) }
{
    let outputs = members.outputs.len().checked_add(members.update.len())?;
    let all = members.inputs.len().checked_add(outputs)?;
    u32::try_from(all.checked_add(1)?).ok()
}

/// Place for the lines of products, if there are any, and one diagram more, if there is a number for it.
fn place_for_early(early: &Option<Early>) -> Option<u32>
    ensures { IfSome result (λ most. early_count early.now < most) }
{
    match early {
        None => Some(1),
        Some(early) => {
            let lines = early
                .inputs
                .lines
                .len()
                .checked_add(early.replies.lines.len())?;
            u32::try_from(lines.checked_add(1)?).ok()
        }
    }
}

/// Room for searches among the lines of moves. Want of a number for it is want of memory.
fn room(alloc: Global, levels: u32, own: &Own) -> Result<Search, OutOfMemory>
    ensures { IfOk result (λ search. IsRoom levels own.now search) }
{
    let first = place_for(&own.first).ok_or(AllocError)?;
    let later = place_for(&own.step.later).ok_or(AllocError)?;
    let early = place_for_early(&own.early).ok_or(AllocError)?;
    Search::make(alloc, levels, first.max(later).max(early))
}

impl RegionBdd {
    /// The regions of a game, in a store of at most `budget` nodes, the two constants among them. `Budget`: sets of the game's
    /// own formulas and one operation's unfinished results fill it exactly. `Memory`: none was given. Where `near`, the bits of
    /// a state stand near those that lines tie them to, and nothing is told of why the budget ended it.
    pub fn make(alloc: Global, game: Game, budget: u32, near: bool) -> Result<RegionBdd, Halt>
        requires made { WellMade (game_data game) }
        requires budget { 2 ≤ budget }
        ensures made { IfOk result (λ r. seen r ≡ kept_in (game_data game) (seen r).bound None []) }
        ensures bound { near ≡ false → IfOk result (λ r. (seen r).bound ≡ budget) }
        ensures cause { let g = game_data game in
            near ≡ false → result ≡ Err Halt.Budget → IsTooSmall (need_of_game g) g budget }
    {
        let Ok(codes) = Codes::make(alloc, &game) else {
            return Err(Halt::Memory);
        };
        let Ok(levels) = next_levels(alloc, &codes, &game) else {
            return Err(Halt::Memory);
        };
        let Ok(order) = order_of(alloc, &game, &codes, &levels.to, near) else {
            return Err(Halt::Memory);
        };
        let grouped = is_moved(&order);
        let Ok(mut diagrams) = Diagrams::make(alloc, order, budget) else {
            return Err(Halt::Memory);
        };
        let own = own(&mut diagrams, alloc, &codes, &game, &levels, grouped)?;
        let Ok(search) = room(alloc, codes.levels(), &own) else {
            release_own(&mut diagrams, own);
            return Err(Halt::Memory);
        };
        Ok(RegionBdd {
            game,
            diagrams,
            own,
            levels,
            slots: Slots::none(alloc),
            refused: None,
            codes,
            search,
        })
    }
}
