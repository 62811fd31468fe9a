//! The talk of a row over both kinds of regions: rows, which list the states of a game one by one, and diagrams.

ghost use Rattle.std.specs.Prelude.{◌≡◌, None, IfSome};
ghost use Rattle.spec_model.specs.Views.{spec_data};
ghost use Rattle.spec_model.specs.WellTyped.{WellTyped};
ghost use Rattle.spec_model.specs.WellMade.{WellMade};
ghost use Rattle.hidden_game.specs.GameOf.{game_of};

use crate::judging::Wrong;
use crate::playing::Told;
use crate::row::Row;
use hidden_game::expand;
use region_bdd::RegionBdd;
use region_rows::RegionRows;
use regions::{Halt, Regions};
use solve::{Solved, environment_play, solve_game, system_play};
use sp_outside::{MemorySink, MemorySource};
use spec_model::spec::Spec;
use spectra_files::reading::tree_of;
use spectra_talks::countering::counter;
use spectra_talks::holding::hold;
use spectra_talks::status::Status;
use spectra_types::resolve;
use std::alloc::Global;

/// The budget of diagrams.
const NODES: u32 = 4_194_304;

/// The other verdict than the one that the command is for: the verdict alone is written.
const OTHER: u8 = 1;

impl From<Halt> for Wrong {
    fn from(_: Halt) -> Wrong {
        Wrong::Plain("nodes or memory ran out")
    }
}

/// The text of the row's one file has the row's verdict and talk over rows and over diagrams.
pub fn judge_both(alloc: Global, row: &Row) -> Result<(), Wrong> {
    let Some(spec) = meant(alloc, row) else {
        return Err(Wrong::Plain("its text alone means nothing"));
    };
    let game = expand(alloc, &spec)?;
    let Ok(rows) = RegionRows::make(alloc, game) else {
        return Err(Wrong::Plain("rows don't list its states"));
    };
    agree(alloc, row, "over rows", told_over(alloc, row, &spec, rows)?)?;
    let diagrams = RegionBdd::make(alloc, expand(alloc, &spec)?, NODES, false)?;
    let told = told_over(alloc, row, &spec, diagrams)?;
    agree(alloc, row, "over diagrams", told)
}

// The specification that the text of the main file means, where it means one.
fn meant(alloc: Global, row: &Row) -> Option<Spec>
    ensures { IfSome result (λ spec. WellTyped (spec_data spec)) }
{
    let main = row.files.first()?;
    let Ok(tree) = tree_of(alloc, &main.text) else {
        return None;
    };
    match resolve(alloc, &[tree]) {
        Ok(spec) => Some(spec),
        Err(_) => None,
    }
}

// The talk of the side that wins, by its strategy over these regions.
fn told_over<G: Regions + Drop>(alloc: Global, row: &Row, spec: &Spec, g: G) -> Result<Told, Wrong>
    requires typed { WellTyped (spec_data spec.now) }
    requires free { (G.kept g).jam ≡ None }
    requires made { WellMade (G.kept g).game }
    requires game { (G.kept g).game ≡ game_of (spec_data spec.now) }
{
    let mut input = MemorySource::make(alloc, &row.input, &[])?;
    let mut output = MemorySink::make(alloc, row.wanted.len().saturating_add(4_096), &[])?;
    let status = play_over(alloc, spec, g, &mut input, &mut output)?;
    Ok(Told {
        written: output.written().to_vec(alloc)?,
        status: status.number(),
        taken: 0,
        failed: false,
    })
}

fn play_over<G: Regions + Drop>(
    alloc: Global,
    spec: &Spec,
    g: G,
    input: &mut MemorySource,
    output: &mut MemorySink,
) -> Result<Status, Halt>
    requires typed { WellTyped (spec_data spec.now) }
    requires free { (G.kept g).jam ≡ None }
    requires made { WellMade (G.kept g).game }
    requires game { (G.kept g).game ≡ game_of (spec_data spec.now) }
{
    let mut g = g;
    match solve_game(alloc, &mut g)? {
        Solved::BySystem(layers) => {
            let (k, play) = system_play(alloc, g, layers)?;
            Ok(hold(alloc, spec, k, play, input, output))
        }
        Solved::ByEnvironment(layers) => {
            let (n, m, play) = environment_play(alloc, g, layers)?;
            Ok(counter(alloc, spec, n, m, play, input, output))
        }
    }
}

// Whether the talk is the row's, or begins with its verdict.
fn agree(alloc: Global, row: &Row, kind: &str, told: Told) -> Result<(), Wrong> {
    let agrees = if row.status == OTHER {
        told.written.starts_with(&row.wanted)
    } else {
        told.status == row.status && told.written == row.wanted
    };
    if agrees {
        return Ok(());
    }
    Err(Wrong::Told(String::from_str(alloc, kind)?, told))
}
