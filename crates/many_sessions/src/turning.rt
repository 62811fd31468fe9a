//! One text of a session: it is read and judged, and the play moves on.

ghost use Rattle.std.specs.Prelude.{◌≡◌, ◌≤◌, true, length, drop};
ghost use Rattle.spec_model.specs.Syntax.{Specification};
ghost use Rattle.spec_model.specs.Rules.{Run};
ghost use Rattle.spec_model.specs.Values.{is_assignment};
ghost use Rattle.spec_model.specs.Steps.{Before};
ghost use Rattle.gr1_law.specs.Choice.{Memory};
ghost use Rattle.session_lines.specs.Room.{domains};
ghost use Rattle.session_lines.specs.Shown.{inputs_of};
ghost use Rattle.session_lines.specs.Views.{AreFor, line_of};
ghost use Rattle.many_sessions.specs.Numbered.{IsSession};
ghost use Rattle.many_sessions.specs.Terms.{ManyState};
ghost use Rattle.many_sessions.specs.Seats.{Serves};
ghost use Rattle.many_sessions.specs.Solo.{alive};
ghost use Rattle.many_sessions.specs.Turns.{MovesOn, TakesTurn};

use crate::choosing::{choose, read};
use crate::many::Many;
use controller::Controller;
use regions::Regions;
use session_lines::Lines;
use spec_model::game::Label;

/// What came of a session's text.
#[derive(Clone, Copy, PartialEq, Eq)]
pub enum Outcome {
    /// The session was over before.
    Ended,
    /// No input was read of it, so the session is over.
    Refused,
    /// The input breaks an assumption, the first of them in text order, so the session is over.
    Broken(Label),
    /// A move was made.
    Moved,
}

// Makes the move that answers the input that was read, unless that breaks an assumption.
fn move_on<G: Regions>(many: &mut Many, play: &mut Controller<G>, number: usize) -> Outcome
    requires session { IsSession number }
    requires serves { (s : Specification) × (st : ManyState) × (h : Run) × (b : Before) × (m : Memory) × Serves G.kept many.old play.old s st × (st.sessions number ≡ alive h b m)
        × (is_assignment (domains (inputs_of s)) many.old.input.items ≡ true) }
    ensures { (s : Specification) (st : ManyState) (h : Run) (b : Before) (m : Memory) → Serves G.kept many.old play.old s st → st.sessions number ≡ alive h b m
        → is_assignment (domains (inputs_of s)) many.old.input.items ≡ true
        → MovesOn G.kept s st number h b m many.old.input.items many.new.output.items many.new play.new result }
{
    many.bring(play, number);
    if let Some(label) = play.legal(&many.input) {
        many.close(number);
        return Outcome::Broken(label);
    }
    choose(many, play);
    many.remember(play, number);
    Outcome::Moved
}

/// Takes what the line at hand has from a place on as the text of a session.
pub fn take_turn<G: Regions>(
    many: &mut Many,
    play: &mut Controller<G>,
    lines: &Lines,
    number: usize,
    from: usize,
) -> Outcome
    requires session { IsSession number }
    requires within { from ≤ length (line_of lines.now) }
    requires serves { (s : Specification) × (st : ManyState) × AreFor lines.now s × Serves G.kept many.old play.old s st }
    ensures { (s : Specification) (st : ManyState) → AreFor lines.now s → Serves G.kept many.old play.old s st
        → TakesTurn G.kept s st number (drop from (line_of lines.now)) many.new play.new result }
{
    if many.is_over(number) {
        return Outcome::Ended;
    }
    if !read(many, lines, from) {
        many.close(number);
        return Outcome::Refused;
    }
    move_on(many, play, number)
}
