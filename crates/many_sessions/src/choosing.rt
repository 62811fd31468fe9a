//! The moves of a session: an input is read, and an output is chosen for it.

ghost use Rattle.std.specs.Prelude.{◌≡◌, ◌≤◌, length, drop, IsTrue};
ghost use Rattle.std.specs.Bool.{OnTrue, OnFalse};
ghost use Rattle.spec_model.specs.Values.{Assignment};
ghost use Rattle.spec_model.specs.Steps.{is_input, legal_input};
ghost use Rattle.gr1_law.specs.Choice.{Memory};
ghost use Rattle.regions.specs.Rules.{output_count};
ghost use Rattle.session_lines.specs.Reading.{Reads};
ghost use Rattle.session_lines.specs.Views.{line_of, names_of, wanted_variables};
ghost use Rattle.controller.specs.Objects.{game_of, Stands, InEachPlay, GoesOn, HoldsTheSame};
ghost use Rattle.many_sessions.specs.Seats.{KeepsSeats};

use crate::many::Many;
use controller::Controller;
use regions::Regions;
use session_lines::Lines;
use spec_model::value::Value;

/// Reads an input of what the line at hand has from a place on, and says whether it reads as one.
pub fn read(many: &mut Many, lines: &Lines, from: usize) -> bool
    requires within { from ≤ length (line_of lines.now) }
    requires room { length many.old.input.items ≡ length (wanted_variables lines.now) }
    ensures read { OnTrue result (Reads (names_of lines.now) (wanted_variables lines.now) (drop from (line_of lines.now)) many.new.input.items) }
    ensures refused { OnFalse result ((xs : Assignment) → Reads (names_of lines.now) (wanted_variables lines.now) (drop from (line_of lines.now)) xs → ⊥) }
    ensures keeps { KeepsSeats many.old many.new }
{
    lines.assign(from, &mut many.input)
}

// Writes the output that is chosen for an input, at the first position or later.
fn choose_for<G: Regions>(play: &mut Controller<G>, input: &[Value], out: &mut [Value])
    requires stands { Stands G.kept play.old }
    requires input { IsTrue (is_input (game_of G.kept play.old) input.now) }
    requires legal { InEachPlay G.kept play.old (λ z l h b m. IsTrue (legal_input (game_of G.kept play.old) b input.now)) }
    requires room { length out.old ≡ output_count (game_of G.kept play.old) }
    ensures chosen { InEachPlay G.kept play.old (λ z l h b m. (next : Memory) × GoesOn G.kept play.old play.new z l h b m input.now out.new next) }
    ensures play { HoldsTheSame G.kept play.old play.new }
{
    if play.is_started() {
        play.step(input, out);
    } else {
        play.start(input, out);
    }
}

/// Chooses the output for the input that was read.
pub fn choose<G: Regions>(many: &mut Many, play: &mut Controller<G>)
    requires stands { Stands G.kept play.old }
    requires input { IsTrue (is_input (game_of G.kept play.old) many.old.input.items) }
    requires legal { InEachPlay G.kept play.old (λ z l h b m. IsTrue (legal_input (game_of G.kept play.old) b many.old.input.items)) }
    requires room { length many.old.output.items ≡ output_count (game_of G.kept play.old) }
    ensures chosen { InEachPlay G.kept play.old (λ z l h b m. (next : Memory) × GoesOn G.kept play.old play.new z l h b m many.old.input.items many.new.output.items next) }
    ensures play { HoldsTheSame G.kept play.old play.new }
    ensures keeps { KeepsSeats many.old many.new }
{
    choose_for(play, &many.input, &mut many.output);
}
