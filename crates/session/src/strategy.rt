//! The system's strategy as what answers the lines, and its talks.

ghost use Rattle.std.specs.Prelude.{◌≡◌, ◌≤◌, true, length, is_none, IsTrue};
ghost use Rattle.sp_outside.specs.Causes.{Rose};
ghost use Rattle.spec_model.specs.Syntax.{Specification};
ghost use Rattle.spec_model.specs.Values.{is_assignment};
ghost use Rattle.spec_model.specs.Steps.{is_input, legal_input};
ghost use Rattle.spec_model.specs.FirstBroken.{first_broken};
ghost use Rattle.gr1_law.specs.Choice.{Memory};
ghost use Rattle.regions.specs.Rules.{output_count};
ghost use Rattle.controller.specs.Objects.{IsFresh, game_of, Stands, InEachPlay, GoesOn, HoldsTheSame};
ghost use Rattle.session_lines.specs.Room.{domains};
ghost use Rattle.session_lines.specs.HowOften.{ReadsForLines};
ghost use Rattle.session_lines.specs.Views.{AreFor, AreUnread, KeepsTables, KeepsReader, wanted_variables, read_of, shown_of};
ghost use Rattle.session.specs.Exchanges.{RepliesTo};
ghost use Rattle.session.specs.Protocols.{Suits, Serves};
ghost use Rattle.session.specs.Talks.{RunTalk};
ghost use Rattle.session.specs.RunTerms.{RunState, run_terms};
ghost use Rattle.session.specs.Strategies.{rounds_of, IsOf, PlaysFor, plays_for};

use crate::protocol::{Alone, Protocol, Reply};
use crate::talking::{End, talk};
use controller::Controller;
use regions::Regions;
use session_lines::Lines;
use sp_outside::{Failed, Sink, Source};
use spec_model::game::Label;

// The first assumption that what was read breaks.
fn broken_by<G: Regions>(play: &Controller<G>, lines: &Lines) -> Option<Label>
    requires stands { Stands G.kept play.now }
    requires input { IsTrue (is_input (game_of G.kept play.now) (read_of lines.now)) }
    ensures first { InEachPlay G.kept play.now (λ z l h b m. result ≡ first_broken (game_of G.kept play.now) b (read_of lines.now)) }
    ensures none { InEachPlay G.kept play.now (λ z l h b m. is_none result ≡ legal_input (game_of G.kept play.now) b (read_of lines.now)) }
{
    play.legal(&lines.wanted.values)
}

// Chooses the output that answers what was read, at the first position or later.
fn choose<G: Regions>(play: &mut Controller<G>, lines: &mut Lines)
    requires stands { Stands G.kept play.old }
    requires input { IsTrue (is_input (game_of G.kept play.old) (read_of lines.old)) }
    requires legal { InEachPlay G.kept play.old (λ z l h b m. IsTrue (legal_input (game_of G.kept play.old) b (read_of lines.old))) }
    requires room { length (shown_of lines.old) ≡ output_count (game_of G.kept play.old) }
    ensures chosen { InEachPlay G.kept play.old (λ z l h b m. (next : Memory) × GoesOn G.kept play.old play.new z l h b m (read_of lines.old) (shown_of lines.new) next) }
    ensures play { HoldsTheSame G.kept play.old play.new }
    ensures keeps { KeepsTables lines.old lines.new }
    ensures reader { KeepsReader lines.old lines.new }
{
    let wanted = &lines.wanted;
    let shown = &mut lines.shown;
    if play.is_started() {
        play.step(&wanted.values, &mut shown.values);
    } else {
        play.start(&wanted.values, &mut shown.values);
    }
}

// Answers the input that was read, unless that breaks an assumption.
fn reply<G: Regions, O: Sink>(play: &mut Controller<G>, lines: &mut Lines, output: &mut O) -> Reply
    requires serves { Serves run_terms (plays_for G.kept play.old) lines.old }
    requires read { is_assignment (domains (wanted_variables lines.old)) (read_of lines.old) ≡ true }
    ensures replies { (s : Specification) (st : RunState) → Suits lines.old (run_terms s) → plays_for G.kept play.old s st →
        RepliesTo (run_terms s) (plays_for G.kept play.new s) st (O.written output.old) (O.written output.new) (Rose (O.faults output.old) (O.faults output.new)) (read_of lines.old) result }
    ensures later { O.faults output.old ≤ O.faults output.new }
    ensures keeps { KeepsTables lines.old lines.new }
    ensures reader { KeepsReader lines.old lines.new }
{
    if let Some(label) = broken_by(play, lines) {
        return Reply::Broken(label);
    }
    choose(play, lines);
    match lines.write_shown(output) {
        Ok(()) => Reply::Answered,
        Err(_) => Reply::Failed,
    }
}

impl<G: Regions> Protocol<Alone> for Controller<G> {
    ghost use Rattle.spec_model.specs.Values.{Assignment};
    ghost use Rattle.session.specs.RunTerms.{RunState, run_terms};
    ghost use Rattle.session.specs.Strategies.{plays_for};

    ghost State = { RunState };

    ghost Read = { Assignment };

    ghost terms = { run_terms };

    ghost begins = { λ c w. plays_for G.kept c };

    ghost stands = { λ c w. plays_for G.kept c };

    // The environment moves first.
    fn open<O: Sink>(
        &mut self,
        beside: &mut Alone,
        lines: &mut Lines,
        output: &mut O,
    ) -> Result<(), Failed> {
        let _ = beside;
        let _ = lines;
        let _ = output;
        Ok(())
    }

    fn answer<O: Sink>(&mut self, beside: &mut Alone, lines: &mut Lines, output: &mut O) -> Reply {
        let _ = beside;
        if !lines.read() {
            return Reply::Refused;
        }
        reply(self, lines, output)
    }
}

/// Answers the lines of the input by the system's strategy, at most `limit` of them, and says how the talk ended. It takes
/// no memory.
///
/// Each line is answered before the input is read again. Each read takes at least one byte, but for one that finds the end or
/// fails, and no more is taken than `limit` lines and one line's room. The order for one line: the input's fault, the line
/// refused, the assumption broken.
pub fn run_lines<G: Regions, I: Source, O: Sink>(
    lines: &mut Lines,
    play: &mut Controller<G>,
    input: &mut I,
    output: &mut O,
    limit: u64,
) -> End
    requires unread { AreUnread lines.old }
    requires fresh { IsFresh play.old }
    requires stands { Stands G.kept play.old }
    requires one_specification { (s : Specification) × AreFor lines.old s × IsOf G.kept play.old s }
    ensures talk { (s : Specification) → AreFor lines.old s → IsOf G.kept play.old s →
        RunTalk s (rounds_of play.old) limit (I.left input.old) (I.left input.new) (O.written output.old) (O.written output.new)
        (Rose (I.faults input.old) (I.faults input.new)) (Rose (O.faults output.old) (O.faults output.new)) result }
    ensures reads { ReadsForLines limit (I.left input.old) (I.left input.new) (I.reads input.old) (I.reads input.new) }
    ensures stands { Stands G.kept play.new }
    ensures later_in { I.faults input.old ≤ I.faults input.new }
    ensures later_out { O.faults output.old ≤ O.faults output.new }
{
    talk(lines, play, &mut Alone, input, output, limit)
}
