//! Writing the expressions of a text out, as long as there is room.

ghost use Rattle.std.specs.Prelude.{◌≡◌, [], map, IfOk};
ghost use Rattle.spectra_resolved.specs.Chained.{regexes as regexes_lem};
ghost use Rattle.spectra_resolved.specs.Views.{resolved_data, regex_data};
ghost use Rattle.spectra_resolved.specs.TextViews.{definition_data, pattern_line_data, pattern_data, body_data, line_data, text_data};
ghost use Rattle.spectra_copies.specs.Texts.{each_in_turn, fitted, tree_out, regex_out, regexes_out, definition_out, pattern_line_out, pattern_out, body_out, line_out, written_text};
ghost use Rattle.spectra_copies.specs.Copies.{written};
ghost use Rattle.spectra_copies.specs.TextSteps.{Leaves};

use crate::quantifiers::has_quantifier;
use crate::writing::write_out;
use spectra_resolved::text::{Body, Definition, Line, Pattern, PatternLine, Text};
use spectra_resolved::tree::{Regex, Resolved};
use std::alloc::{AllocError, Global};

// The most nodes of all expressions that are written out as they are written.
const MOST_NODES: usize = 1_000_000;

/// The numbers of the defines that have one, and the room for nodes that is left: none from the first expression on that
/// doesn't fit.
#[derive(Drop)]
pub struct Writer<'s> {
    alloc: Global,
    numbers: &'s [Option<i64>],
    room: Option<usize>,
}

impl<'s> Writer<'s> {
    // An expression that has a quantifier.
    fn quantified(&mut self, t: Resolved) -> Result<Resolved, AllocError>
        ensures kept { self.new.numbers.now ≡ self.old.numbers.now }
        ensures out { Leaves resolved_data self.new.room (fitted self.old.room (resolved_data t) (written self.old.numbers.now [] (resolved_data t))) result }
    {
        let room = match self.room {
            Some(room) => room,
            None => return Ok(t),
        };
        match write_out(self.alloc, self.numbers, room, &t)? {
            Some(made) => {
                self.room = Some(room - made.nodes);
                Ok(Box::into_inner(made.tree))
            }
            None => {
                self.room = None;
                Ok(t)
            }
        }
    }

    // An expression.
    fn tree(&mut self, t: Resolved) -> Result<Resolved, AllocError>
        ensures kept { self.new.numbers.now ≡ self.old.numbers.now }
        ensures out { Leaves resolved_data self.new.room (tree_out self.old.numbers.now self.old.room (resolved_data t)) result }
    {
        if has_quantifier(&t) {
            self.quantified(t)
        } else {
            Ok(t)
        }
    }

    // Several expressions.
    fn trees(&mut self, ts: Vec<Resolved>) -> Result<Vec<Resolved>, AllocError>
        ensures kept { self.new.numbers.now ≡ self.old.numbers.now }
        ensures out { Leaves (λ made. map resolved_data made.items) self.new.room (each_in_turn (tree_out self.old.numbers.now) self.old.room (map resolved_data ts.items)) result }
    {
        let mut all = Vec::with_capacity(self.alloc, ts.len())?;
        for t in ts {
            all.push(self.tree(t)?)?;
        }
        Ok(all)
    }

    // A regular expression.
    #[cycle(regexes)]
    fn regex(&mut self, r: Regex) -> Result<Regex, AllocError>
        ensures kept { self.new.numbers.now ≡ self.old.numbers.now }
        ensures out { Leaves regex_data self.new.room (regex_out self.old.numbers.now self.old.room (regex_data r)) result }
    {
        match r {
            Regex::Atom(t) => {
                let made = self.tree(Box::into_inner(t))?;
                Ok(Regex::Atom(Box::new(self.alloc, made)?))
            }
            Regex::Cat(rs) => Ok(Regex::Cat(self.regexes(rs)?)),
            Regex::Alt(rs) => Ok(Regex::Alt(self.regexes(rs)?)),
            Regex::Repeat(part, times) => {
                let made = self.regex(Box::into_inner(part))?;
                Ok(Regex::Repeat(Box::new(self.alloc, made)?, times))
            }
        }
    }

    // Several regular expressions.
    #[cycle(regexes)]
    fn regexes(&mut self, rs: Vec<Regex>) -> Result<Vec<Regex>, AllocError>
        ensures kept { self.new.numbers.now ≡ self.old.numbers.now }
        ensures out { Leaves (λ made. regexes_lem (map regex_data made.items)) self.new.room (regexes_out self.old.numbers.now self.old.room (regexes_lem (map regex_data rs.items))) result }
    {
        let mut all = Vec::with_capacity(self.alloc, rs.len())?;
        for r in rs {
            all.push(self.regex(r)?)?;
        }
        Ok(all)
    }

    // A definition.
    fn definition<'t>(&mut self, d: Definition<'t>) -> Result<Definition<'t>, AllocError>
        ensures kept { self.new.numbers.now ≡ self.old.numbers.now }
        ensures out { Leaves definition_data self.new.room (definition_out self.old.numbers.now self.old.room (definition_data d.entry)) result }
    {
        Ok(Definition {
            name: d.name,
            word: d.word,
            params: d.params,
            doubled: d.doubled,
            body: self.tree(d.body)?,
        })
    }

    // Several definitions.
    fn definitions<'t>(
        &mut self,
        ds: Vec<Definition<'t>>,
    ) -> Result<Vec<Definition<'t>>, AllocError>
        ensures kept { self.new.numbers.now ≡ self.old.numbers.now }
        ensures out { Leaves (λ made. map definition_data made.items) self.new.room (each_in_turn (definition_out self.old.numbers.now) self.old.room (map definition_data ds.entry.items)) result }
    {
        let mut all = Vec::with_capacity(self.alloc, ds.len())?;
        for d in ds {
            all.push(self.definition(d)?)?;
        }
        Ok(all)
    }

    // A pattern's line.
    fn pattern_line(&mut self, line: PatternLine) -> Result<PatternLine, AllocError>
        ensures kept { self.new.numbers.now ≡ self.old.numbers.now }
        ensures out { Leaves pattern_line_data self.new.room (pattern_line_out self.old.numbers.now self.old.room (pattern_line_data line)) result }
    {
        match line {
            PatternLine::Initial(at, t) => Ok(PatternLine::Initial(at, self.tree(t)?)),
            PatternLine::Safety(at, t) => Ok(PatternLine::Safety(at, self.tree(t)?)),
            PatternLine::Recurring(at, t) => Ok(PatternLine::Recurring(at, self.tree(t)?)),
        }
    }

    // Several lines of a pattern.
    fn pattern_lines(&mut self, lines: Vec<PatternLine>) -> Result<Vec<PatternLine>, AllocError>
        ensures kept { self.new.numbers.now ≡ self.old.numbers.now }
        ensures out { Leaves (λ made. map pattern_line_data made.items) self.new.room (each_in_turn (pattern_line_out self.old.numbers.now) self.old.room (map pattern_line_data lines.items)) result }
    {
        let mut all = Vec::with_capacity(self.alloc, lines.len())?;
        for line in lines {
            all.push(self.pattern_line(line)?)?;
        }
        Ok(all)
    }

    // Patterns.
    fn patterns<'t>(&mut self, ps: Vec<Pattern<'t>>) -> Result<Vec<Pattern<'t>>, AllocError>
        ensures kept { self.new.numbers.now ≡ self.old.numbers.now }
        ensures out { Leaves (λ made. map pattern_data made.items) self.new.room (each_in_turn (pattern_out self.old.numbers.now) self.old.room (map pattern_data ps.entry.items)) result }
    {
        let mut all = Vec::with_capacity(self.alloc, ps.len())?;
        for p in ps {
            let lines = self.pattern_lines(p.lines)?;
            all.push(Pattern {
                name: p.name,
                params: p.params,
                doubled: p.doubled,
                own: p.own,
                lines,
            })?;
        }
        Ok(all)
    }

    // What a line says.
    fn body(&mut self, body: Body) -> Result<Body, AllocError>
        ensures kept { self.new.numbers.now ≡ self.old.numbers.now }
        ensures out { Leaves body_data self.new.room (body_out self.old.numbers.now self.old.room (body_data body)) result }
    {
        match body {
            Body::Initial(t) => Ok(Body::Initial(self.tree(t)?)),
            Body::Safety(t) => Ok(Body::Safety(self.tree(t)?)),
            Body::Recurring(t) => Ok(Body::Recurring(self.tree(t)?)),
            Body::Trigger(at, cause, effect) => {
                let cause = self.regex(cause)?;
                let effect = self.regex(effect)?;
                Ok(Body::Trigger(at, cause, effect))
            }
            Body::Pattern(at, used, arguments) => {
                Ok(Body::Pattern(at, used, self.trees(arguments)?))
            }
        }
    }

    // Lines.
    fn lines<'t>(&mut self, ls: Vec<Line<'t>>) -> Result<Vec<Line<'t>>, AllocError>
        ensures kept { self.new.numbers.now ≡ self.old.numbers.now }
        ensures out { Leaves (λ made. map line_data made.items) self.new.room (each_in_turn (line_out self.old.numbers.now) self.old.room (map line_data ls.entry.items)) result }
    {
        let mut all = Vec::with_capacity(self.alloc, ls.len())?;
        for l in ls {
            let body = self.body(l.body)?;
            all.push(Line {
                at: l.at,
                item: l.item,
                role: l.role,
                name: l.name,
                body,
            })?;
        }
        Ok(all)
    }
}

/// A text whose expressions are written out, as long as those written out have at most 1,000,000 nodes together: its
/// definitions, then its patterns' lines, and then its lines. From the first one on that doesn't fit they stay as they are.
/// `numbers` has those of the defines that have one. The error is that memory is short.
pub fn write_text<'t>(
    alloc: Global,
    numbers: &[Option<i64>],
    text: Text<'t>,
) -> Result<Text<'t>, AllocError>
    ensures { IfOk result (λ made. text_data made ≡ written_text numbers.now (text_data text.entry)) }
{
    let room = Some(MOST_NODES);
    let mut writer = Writer {
        alloc,
        numbers,
        room,
    };
    let definitions = writer.definitions(text.definitions)?;
    let patterns = writer.patterns(text.patterns)?;
    let lines = writer.lines(text.lines)?;
    Ok(Text {
        names: text.names,
        variables: text.variables,
        types: text.types,
        definitions,
        patterns,
        lines,
    })
}
