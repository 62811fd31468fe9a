//! The environment's strategy as what answers the lines, and its talks.

ghost use Rattle.std.specs.Prelude.{◌≡◌, ◌≤◌, ◌++◌, ◌∷◌, [], true, length, is_none, IsTrue, OnOk, OnErr};
ghost use Rattle.std.specs.Io.KnownBytes.{Appends};
ghost use Rattle.sp_outside.specs.Causes.{Rose, HasCause};
ghost use Rattle.sp_outside.specs.Written.{AppendsFront};
ghost use Rattle.spec_model.specs.Syntax.{Specification};
ghost use Rattle.spec_model.specs.Values.{is_assignment};
ghost use Rattle.spec_model.specs.Steps.{is_output, legal_output};
ghost use Rattle.spec_model.specs.FirstBroken.{first_broken_output};
ghost use Rattle.regions.specs.Rules.{input_count};
ghost use Rattle.gr1_law.specs.Counter.{CounterMemory};
ghost use Rattle.counterstrategy.specs.Objects.{IsFresh, HasGiven, given_by, game_of, Stands, InEachPlay, Gives, GoesOn, HoldsTheSame, note_data};
ghost use Rattle.session_lines.specs.Room.{domains};
ghost use Rattle.session_lines.specs.Shown.{show};
ghost use Rattle.session_lines.specs.HowOften.{ReadsForLines};
ghost use Rattle.session_lines.specs.Views.{AreFor, AreUnread, KeepsTables, KeepsReader, names_of, wanted_variables, shown_variables, read_of, shown_of};
ghost use Rattle.session.specs.Exchanges.{RepliesTo};
ghost use Rattle.session.specs.Protocols.{Suits, Serves};
ghost use Rattle.session.specs.CounterTalks.{CounterTalk, denial_line, note_line};
ghost use Rattle.session.specs.CounterTerms.{CounterState, counter_terms};
ghost use Rattle.session.specs.Counters.{shifts_of, denials_of, IsCounterOf, HasPlayedNothing, gives_in};

use crate::protocol::{Alone, Protocol, Reply};
use crate::talking::{End, talk};
use counterstrategy::{Counterstrategy, Note};
use regions::Regions;
use session_lines::Lines;
use sp_outside::{Failed, Sink, Source, write_line};
use spec_model::game::Label;

// The first guarantee or monitor's line that what was read breaks.
fn broken_with<G: Regions>(play: &Counterstrategy<G>, lines: &Lines) -> Option<Label>
    requires stands { Stands G.kept play.now }
    requires given { HasGiven play.now }
    requires output { IsTrue (is_output (game_of G.kept play.now) (read_of lines.now)) }
    ensures first { InEachPlay G.kept play.now (λ e h notes b k. result ≡ first_broken_output (game_of G.kept play.now) b (given_by play.now) (read_of lines.now)) }
    ensures none { InEachPlay G.kept play.now (λ e h notes b k. is_none result ≡ legal_output (game_of G.kept play.now) b (given_by play.now) (read_of lines.now)) }
{
    play.legal(&lines.wanted.values)
}

// Gives the first input.
fn begin<G: Regions>(play: &mut Counterstrategy<G>, lines: &mut Lines)
    requires stands { Stands G.kept play.old }
    requires fresh { IsFresh play.old }
    requires room { length (shown_of lines.old) ≡ input_count (game_of G.kept play.old) }
    ensures given { InEachPlay G.kept play.old (λ e h notes b k. Gives G.kept play.new e h notes b k (shown_of lines.new)) }
    ensures play { HoldsTheSame G.kept play.old play.new }
    ensures keeps { KeepsTables lines.old lines.new }
    ensures reader { KeepsReader lines.old lines.new }
{
    let shown = &mut lines.shown;
    play.first(&mut shown.values);
}

// Notes the position that what was read completes, and gives the next input.
fn complete<G: Regions>(play: &mut Counterstrategy<G>, lines: &mut Lines) -> Note
    requires stands { Stands G.kept play.old }
    requires given { HasGiven play.old }
    requires output { IsTrue (is_output (game_of G.kept play.old) (read_of lines.old)) }
    requires legal { InEachPlay G.kept play.old (λ e h notes b k. IsTrue (legal_output (game_of G.kept play.old) b (given_by play.old) (read_of lines.old))) }
    requires room { length (shown_of lines.old) ≡ input_count (game_of G.kept play.old) }
    ensures answered { InEachPlay G.kept play.old (λ e h notes b k. (next : CounterMemory) × GoesOn G.kept play.old play.new e h notes b k (read_of lines.old) result next (shown_of lines.new)) }
    ensures play { HoldsTheSame G.kept play.old play.new }
    ensures keeps { KeepsTables lines.old lines.new }
    ensures reader { KeepsReader lines.old lines.new }
{
    let wanted = &lines.wanted;
    let shown = &mut lines.shown;
    play.reply(&wanted.values, &mut shown.values)
}

// Writes the line of a note.
fn write_note<O: Sink>(lines: &mut Lines, note: Note, output: &mut O) -> Result<(), Failed>
    ensures whole { OnOk result (Appends (O.written output.old) (O.written output.new) (note_line (note_data note))) }
    ensures part { OnErr result (AppendsFront (O.written output.old) (O.written output.new) (note_line (note_data note))) }
    ensures cause { HasCause (O.faults output.old) (O.faults output.new) result }
    ensures keeps { KeepsTables lines.old lines.new }
    ensures reader { KeepsReader lines.old lines.new }
    ensures shown { shown_of lines.new ≡ shown_of lines.old }
{
    match note {
        Note::Shift => write_line(output, b"shift\n"),
        Note::Deny(label) => write_denial(lines, label, output),
    }
}

// Writes which goal is denied: by its part, too, where its line gives several.
fn write_denial<O: Sink>(lines: &mut Lines, goal: Label, output: &mut O) -> Result<(), Failed>
    ensures whole { OnOk result (Appends (O.written output.old) (O.written output.new) (denial_line goal)) }
    ensures part { OnErr result (AppendsFront (O.written output.old) (O.written output.new) (denial_line goal)) }
    ensures cause { HasCause (O.faults output.old) (O.faults output.new) result }
    ensures keeps { KeepsTables lines.old lines.new }
    ensures reader { KeepsReader lines.old lines.new }
    ensures shown { shown_of lines.new ≡ shown_of lines.old }
{
    let line = u64::from(goal.line);
    if goal.part == 0 {
        return lines.write_numbered(b"deny #", line, b"\n", output);
    }
    lines.write_twice_numbered(b"deny #", line, b".", goal.part.into(), b"\n", output)
}

// Writes a note and then the input that was given.
fn write_answer<O: Sink>(lines: &mut Lines, note: Note, output: &mut O) -> Result<(), Failed>
    requires { is_assignment (domains (shown_variables lines.old)) (shown_of lines.old) ≡ true }
    ensures whole { OnOk result (Appends (O.written output.old) (O.written output.new)
        (note_line (note_data note) ++ (show (names_of lines.old) (shown_variables lines.old) (shown_of lines.old) ++ 10 ∷ []))) }
    ensures part { OnErr result (AppendsFront (O.written output.old) (O.written output.new)
        (note_line (note_data note) ++ (show (names_of lines.old) (shown_variables lines.old) (shown_of lines.old) ++ 10 ∷ []))) }
    ensures cause { HasCause (O.faults output.old) (O.faults output.new) result }
    ensures keeps { KeepsTables lines.old lines.new }
    ensures reader { KeepsReader lines.old lines.new }
{
    write_note(lines, note, output)?;
    lines.write_shown(output)
}

// Answers the output that was read, unless that breaks a guarantee or a monitor's line.
fn reply<G: Regions, O: Sink>(
    play: &mut Counterstrategy<G>,
    lines: &mut Lines,
    output: &mut O,
) -> Reply
    requires serves { Serves counter_terms (gives_in G.kept play.old) lines.old }
    requires read { is_assignment (domains (wanted_variables lines.old)) (read_of lines.old) ≡ true }
    ensures replies { (s : Specification) (st : CounterState) → Suits lines.old (counter_terms s) → gives_in G.kept play.old s st →
        RepliesTo (counter_terms s) (gives_in G.kept play.new s) st (O.written output.old) (O.written output.new) (Rose (O.faults output.old) (O.faults output.new)) (read_of lines.old) result }
    ensures later { O.faults output.old ≤ O.faults output.new }
    ensures keeps { KeepsTables lines.old lines.new }
    ensures reader { KeepsReader lines.old lines.new }
{
    if let Some(label) = broken_with(play, lines) {
        return Reply::Broken(label);
    }
    let note = complete(play, lines);
    match write_answer(lines, note, output) {
        Ok(()) => Reply::Answered,
        Err(_) => Reply::Failed,
    }
}

impl<G: Regions> Protocol<Alone> for Counterstrategy<G> {
    ghost use Rattle.spec_model.specs.Values.{Assignment};
    ghost use Rattle.session.specs.CounterTerms.{CounterState, counter_terms};
    ghost use Rattle.session.specs.Counters.{waits_in, gives_in};

    ghost State = { CounterState };

    ghost Read = { Assignment };

    ghost terms = { counter_terms };

    ghost begins = { λ c w. waits_in G.kept c };

    ghost stands = { λ c w. gives_in G.kept c };

    // The environment moves first.
    fn open<O: Sink>(
        &mut self,
        beside: &mut Alone,
        lines: &mut Lines,
        output: &mut O,
    ) -> Result<(), Failed> {
        let _ = beside;
        begin(self, lines);
        lines.write_shown(output)
    }

    fn answer<O: Sink>(&mut self, beside: &mut Alone, lines: &mut Lines, output: &mut O) -> Reply {
        let _ = beside;
        if !lines.read() {
            return Reply::Refused;
        }
        reply(self, lines, output)
    }
}

/// Writes the first input of the environment's strategy, and answers each line of the input, at most `limit` of them, by the
/// note of the position that it completes and the next input; and says how the talk ended. It takes no memory.
///
/// Each line is answered before the input is read again. Each read takes at least one byte, but for one that finds the end or
/// fails, and no more is taken than `limit` lines and one line's room. The order for one line: the input's fault, the line
/// refused, the guarantee or monitor's line broken. The lines are turned round: what they wanted is shown.
pub fn counter_lines<G: Regions, I: Source, O: Sink>(
    lines: &mut Lines,
    play: &mut Counterstrategy<G>,
    input: &mut I,
    output: &mut O,
    limit: u64,
) -> End
    requires unread { AreUnread lines.old }
    requires fresh { IsFresh play.old × HasPlayedNothing G.kept play.old }
    requires stands { Stands G.kept play.old }
    requires one_specification { (s : Specification) × AreFor lines.old s × IsCounterOf G.kept play.old s }
    ensures talk { (s : Specification) → AreFor lines.old s → IsCounterOf G.kept play.old s →
        CounterTalk s (shifts_of play.old) (denials_of G.kept play.old) limit (I.left input.old) (I.left input.new) (O.written output.old) (O.written output.new)
        (Rose (I.faults input.old) (I.faults input.new)) (Rose (O.faults output.old) (O.faults output.new)) result }
    ensures reads { ReadsForLines limit (I.left input.old) (I.left input.new) (I.reads input.old) (I.reads input.new) }
    ensures stands { Stands G.kept play.new }
    ensures later_in { I.faults input.old ≤ I.faults input.new }
    ensures later_out { O.faults output.old ≤ O.faults output.new }
{
    lines.turn_round();
    talk(lines, play, &mut Alone, input, output, limit)
}
