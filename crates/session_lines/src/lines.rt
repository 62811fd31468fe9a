//! The lines of plays: what is read and what is shown, with all the room for it.

ghost use Rattle.std.specs.Prelude.{◌≡◌, ◌≤◌, ◌+◌, ◌++◌, ◌∷◌, [], true, false, length, map, drop, string_bytes, vec_capacity, IfOk, OnOk, OnErr};
ghost use Rattle.std.specs.Fmt.{decimal};
ghost use Rattle.std.specs.Bool.{OnTrue, OnFalse};
ghost use Rattle.std.specs.Io.KnownBytes.{Appends};
ghost use Rattle.sp_outside.specs.Causes.{Rose, HasCause};
ghost use Rattle.sp_outside.specs.Written.{AppendsFront};
ghost use Rattle.spec_model.specs.Values.{Assignment, is_assignment};
ghost use Rattle.spec_model.specs.Views.{variable_data, spec_data};
ghost use Rattle.session_lines.specs.Room.{HasHeadRoom};

use crate::make::{copy_names, room_for, sum_of};
use crate::print::{HEAD, NUMBERED, print_row, push_bytes, push_count};
use crate::read::read_line;
use crate::reader::{Reader, Taken};
use crate::row::Row;
use crate::value::are_values;
use sp_outside::{Failed, OutOfMemory, Sink, Source, write_line};
use spec_model::spec::Spec;
use spec_model::value::{Owner, Value};
use std::alloc::Global;

/// What the lines of plays of one specification are read into and printed from. Each buffer is taken by `make`, so that
/// no later call wants memory.
///
/// A line is read as an assignment of the wanted variables, and one of the shown variables is printed on a line. At first
/// the inputs are wanted and the outputs are shown.
#[derive(Drop)]
pub struct Lines {
    pub(crate) names: Vec<String>,
    pub wanted: Row,
    pub shown: Row,
    pub(crate) printed: Vec<u8>,
    pub(crate) reader: Reader,
    ghost wanted_room: { HasHeadRoom (map string_bytes names.items) (map variable_data wanted.vars.items) (vec_capacity printed) },
    ghost shown_room: { HasHeadRoom (map string_bytes names.items) (map variable_data shown.vars.items) (vec_capacity printed) },
    ghost numbered_room: { 80 ≤ vec_capacity printed },
}

impl Lines {
    ghost use Rattle.session_lines.specs.Shown.{show};
    ghost use Rattle.session_lines.specs.Reading.{Reads};
    ghost use Rattle.session_lines.specs.Room.{domains};
    ghost use Rattle.session_lines.specs.Taking.{Takes};
    ghost use Rattle.session_lines.specs.Views.{pending_of, line_of, ended_of, names_of, wanted_variables, shown_variables, read_of, shown_of, AreOver, AreFor, AreForLogs, AreUnread, TurnsRound, KeepsTables, KeepsReader, KeepsMoves, KeepsAll};

    /// The lines of plays of a specification, before any byte was taken. It takes every buffer that later calls use.
    pub fn make(alloc: Global, spec: &Spec) -> Result<Lines, OutOfMemory>
        ensures for_spec { IfOk result (λ lines. AreFor lines (spec_data spec.now)) }
        ensures fresh { IfOk result (λ lines. AreUnread lines) }
    {
        let wanted = Row::make(alloc, &spec.vars, Owner::Env)?;
        let shown = Row::make(alloc, &spec.vars, Owner::Sys)?;
        Lines::over(alloc, &spec.names, wanted, shown)
    }

    /// Likewise the lines of logs of a specification: all variables are wanted, the inputs before the outputs, and none is
    /// shown.
    pub fn make_for_logs(alloc: Global, spec: &Spec) -> Result<Lines, OutOfMemory>
        ensures for_spec { IfOk result (λ lines. AreForLogs lines (spec_data spec.now)) }
        ensures fresh { IfOk result (λ lines. AreUnread lines) }
    {
        let wanted = Row::make_for_all(alloc, &spec.vars)?;
        let shown = Row::make_for_none(alloc)?;
        Lines::over(alloc, &spec.names, wanted, shown)
    }

    // Lines over the variables of two rows.
    fn over(alloc: Global, names: &[String], wanted: Row, shown: Row) -> Result<Lines, OutOfMemory>
        ensures over { IfOk result (λ lines. AreOver lines (map string_bytes names.now) (map variable_data wanted.vars.items) (map variable_data shown.vars.items)) }
        ensures fresh { IfOk result (λ lines. AreUnread lines) }
    {
        let names = copy_names(alloc, names)?;
        let row = room_for(&names, &wanted.vars)?.max(room_for(&names, &shown.vars)?);
        let room = sum_of(row, HEAD)?;
        Ok(Lines {
            names,
            wanted,
            shown,
            printed: Vec::with_capacity(alloc, room.max(NUMBERED))?,
            reader: Reader::make(alloc)?,
        })
    }

    /// Wants what was shown, and shows what was wanted.
    pub fn turn_round(&mut self)
        ensures turns { TurnsRound self.old self.new }
        ensures reader { KeepsReader self.old self.new }
    {
        std::mem::swap(&mut self.wanted, &mut self.shown);
    }

    /// Takes the next line of the input, which is then at hand. The input is read only where no whole line is there, and never
    /// once it gave its end; each read takes at least one byte, but for one that finds the end or fails. It takes no memory.
    pub fn next_line<I: Source>(&mut self, input: &mut I) -> Taken
        ensures takes { ended_of self.old ≡ false → Takes (I.left input.old) (I.left input.new) (I.reads input.old) (I.reads input.new) (ended_of self.new) (pending_of self.old) (line_of self.new) (pending_of self.new) result }
        ensures over { ended_of self.old ≡ true → (result ≡ Taken.Finish) × (input.new ≡ input.old) × (self.new ≡ self.old) }
        ensures keeps { KeepsTables self.old self.new }
        ensures moves { KeepsMoves self.old self.new }
        ensures later { I.faults input.old ≤ I.faults input.new }
        ensures cause { result ≡ Taken.Failed → Rose (I.faults input.old) (I.faults input.new) }
    {
        self.reader.next_line(input)
    }

    /// The line at hand, without its line feed.
    pub fn bytes(&self) -> &[u8]
        ensures { result.now ≡ line_of self.now }
    {
        self.reader.line()
    }

    /// Reads the line at hand as an assignment of the wanted variables, and says whether it reads as one. It takes no
    /// memory.
    pub fn read(&mut self) -> bool
        ensures read { OnTrue result (Reads (names_of self.old) (wanted_variables self.old) (line_of self.old) (read_of self.new)) }
        ensures refused { OnFalse result ((xs : Assignment) → Reads (names_of self.old) (wanted_variables self.old) (line_of self.old) xs → ⊥) }
        ensures shown { shown_of self.new ≡ shown_of self.old }
        ensures keeps { KeepsTables self.old self.new }
        ensures reader { KeepsReader self.old self.new }
    {
        let row = &mut self.wanted;
        read_line(
            &self.names,
            &row.vars,
            row.plain,
            self.reader.line(),
            &mut row.values,
        )
    }

    /// Reads what the line at hand has from a place on as an assignment of the wanted variables, and says whether it reads as
    /// one. It takes no memory.
    pub fn assign(&self, from: usize, out: &mut [Value]) -> bool
        requires within { from ≤ length (line_of self.now) }
        requires room { length out.old ≡ length (wanted_variables self.now) }
        ensures read { OnTrue result (Reads (names_of self.now) (wanted_variables self.now) (drop from (line_of self.now)) out.new) }
        ensures refused { OnFalse result ((xs : Assignment) → Reads (names_of self.now) (wanted_variables self.now) (drop from (line_of self.now)) xs → ⊥) }
    {
        let text = &self.reader.line()[from..];
        read_line(&self.names, &self.wanted.vars, self.wanted.plain, text, out)
    }

    /// Whether these are values of the shown variables, one for each.
    pub fn can_show(&self, values: &[Value]) -> bool
        ensures { result ≡ is_assignment (domains (shown_variables self.now)) values.now }
    {
        are_values(&self.shown.vars, values)
    }

    /// Sets what is shown on the next line.
    pub fn set_shown(&mut self, values: &[Value])
        requires { is_assignment (domains (shown_variables self.old)) values.now ≡ true }
        ensures shown { shown_of self.new ≡ values.now }
        ensures read { read_of self.new ≡ read_of self.old }
        ensures keeps { KeepsTables self.old self.new }
        ensures reader { KeepsReader self.old self.new }
    {
        self.shown.values.copy_from_slice(values);
    }

    /// Writes the line of what is shown, with a line feed. `Failed`: the output failed, and a front of the line is
    /// written. It takes no memory.
    pub fn write_shown<O: Sink>(&mut self, output: &mut O) -> Result<(), Failed>
        requires { is_assignment (domains (shown_variables self.old)) (shown_of self.old) ≡ true }
        ensures whole { OnOk result (Appends (O.written output.old) (O.written output.new)
            (show (names_of self.old) (shown_variables self.old) (shown_of self.old) ++ 10 ∷ [])) }
        ensures part { OnErr result (AppendsFront (O.written output.old) (O.written output.new)
            (show (names_of self.old) (shown_variables self.old) (shown_of self.old) ++ 10 ∷ [])) }
        ensures cause { HasCause (O.faults output.old) (O.faults output.new) result }
        ensures keeps { KeepsTables self.old self.new }
        ensures reader { KeepsReader self.old self.new }
        ensures moves { KeepsMoves self.old self.new }
    {
        print_row(
            &mut self.printed,
            b"",
            &self.names,
            &self.shown.vars,
            &self.shown.values,
        );
        write_line(output, &self.printed)
    }

    /// Writes a line that begins with the head, and then has the shown variables with these values; and says whether it did.
    /// Else the output failed, and a front of the line is written. It takes no memory.
    pub fn show<O: Sink>(&mut self, head: &[u8], values: &[Value], output: &mut O) -> bool
        requires values { is_assignment (domains (shown_variables self.old)) values.now ≡ true }
        requires head { length head.now ≤ 64 }
        ensures whole { OnTrue result (Appends (O.written output.old) (O.written output.new)
            (head.now ++ (show (names_of self.old) (shown_variables self.old) values.now ++ 10 ∷ []))) }
        ensures part { OnFalse result (AppendsFront (O.written output.old) (O.written output.new)
            (head.now ++ (show (names_of self.old) (shown_variables self.old) values.now ++ 10 ∷ []))) }
        ensures cause { OnFalse result (Rose (O.faults output.old) (O.faults output.new)) }
        ensures later { O.faults output.old ≤ O.faults output.new }
        ensures keeps { KeepsAll self.old self.new }
    {
        print_row(
            &mut self.printed,
            head,
            &self.names,
            &self.shown.vars,
            values,
        );
        write_line(output, &self.printed).is_ok()
    }

    /// Writes a line with a number between two texts, of which the second ends it. `Failed`: the output failed, and a front
    /// of the line is written. It takes no memory.
    pub fn write_numbered<O: Sink>(
        &mut self,
        before: &[u8],
        n: u64,
        after: &[u8],
        output: &mut O,
    ) -> Result<(), Failed>
        requires { length before.now + length after.now ≤ 40 }
        ensures whole { OnOk result (Appends (O.written output.old) (O.written output.new) (before.now ++ (decimal n ++ after.now))) }
        ensures part { OnErr result (AppendsFront (O.written output.old) (O.written output.new) (before.now ++ (decimal n ++ after.now))) }
        ensures cause { HasCause (O.faults output.old) (O.faults output.new) result }
        ensures keeps { KeepsTables self.old self.new }
        ensures reader { KeepsReader self.old self.new }
        ensures moves { KeepsMoves self.old self.new }
    {
        self.printed.clear();
        push_bytes(&mut self.printed, before);
        push_count(&mut self.printed, n);
        push_bytes(&mut self.printed, after);
        write_line(output, &self.printed)
    }

    /// Likewise with two numbers, as `deny #4.1` and `audit broken #4 line 2` have. It takes no memory.
    pub fn write_twice_numbered<O: Sink>(
        &mut self,
        before: &[u8],
        n: u64,
        between: &[u8],
        m: u64,
        after: &[u8],
        output: &mut O,
    ) -> Result<(), Failed>
        requires { length before.now + length between.now + length after.now ≤ 40 }
        ensures whole { OnOk result (Appends (O.written output.old) (O.written output.new)
            (before.now ++ (decimal n ++ (between.now ++ (decimal m ++ after.now))))) }
        ensures part { OnErr result (AppendsFront (O.written output.old) (O.written output.new)
            (before.now ++ (decimal n ++ (between.now ++ (decimal m ++ after.now))))) }
        ensures cause { HasCause (O.faults output.old) (O.faults output.new) result }
        ensures keeps { KeepsTables self.old self.new }
        ensures reader { KeepsReader self.old self.new }
        ensures moves { KeepsMoves self.old self.new }
    {
        self.printed.clear();
        push_bytes(&mut self.printed, before);
        push_count(&mut self.printed, n);
        push_bytes(&mut self.printed, between);
        push_count(&mut self.printed, m);
        push_bytes(&mut self.printed, after);
        write_line(output, &self.printed)
    }
}
