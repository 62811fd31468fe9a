//! From an expression to its positions. A repeat is written out, and the last position of an expression comes first, so that
//! a sequence is read from its end.

ghost use Rattle.std.specs.Prelude.{◌≡◌, ◌≤◌, ◌<◌, ◌+◌, ◌*◌, ◌||◌, if◌then◌else◌, length, map, vec_len};
ghost use Rattle.spec_model.specs.Views.{formula, regular};
ghost use Rattle.spec_model.specs.Syntax.{regulars};
ghost use Rattle.spec_model.specs.TriggerStates.{Bracket, Either, Empty, copies, written, written_in_turn, written_besides, repeated, brackets};
ghost use Rattle.trigger_dfa.specs.Sides.{Lays, LaysCopies, Links, tail_of};

use crate::counting::positions_in;
use crate::side::{Part, Side, atom_number, single, when};
use crate::skipping::can_be_skipped;
use crate::unwrapping::unwrapped;
use spec_model::expr::{Expr, Regex};

impl Side {
    // A bracket is one position.
    fn lay_bracket(&mut self, atoms: &[Expr], e: &Expr, end: usize) -> Part
        requires some { 1 ≤ end }
        requires few { end ≤ 64 }
        ensures { Lays (map formula atoms.now) (Bracket (formula e.now)) end self.old self.new result }
    {
        let place = end - 1;
        self.mean(atom_number(atoms, e), place);
        Part {
            size: 1,
            skipped: false,
            firsts: single(place),
            lasts: single(place),
        }
    }

    // What a part is with repeats around it that write it once.
    fn wrap(&mut self, part: Part, starred: bool, optional: bool) -> Part
        requires positions { vec_len self.old.follow ≡ 64 }
        ensures linked { Links (if starred then part.lasts else 0) part.firsts self.old self.new }
        ensures part { result ≡ record part { skipped = part.skipped || optional } }
    {
        self.link(when(starred, part.lasts), part.firsts);
        Part {
            skipped: part.skipped | optional,
            ..part
        }
    }

    /// Adds the positions of an expression, the last of which is the one before `end`. Repeats that write their piece once
    /// are a loop, since they nest as deep as the text is long; those that write it more often nest at most six deep, as there
    /// are 64 positions.
    #[cycle(laying)]
    pub fn lay(&mut self, atoms: &[Expr], r: &Regex, end: usize) -> Part
        requires room { length (brackets (written (regular r.now))) ≤ end }
        requires few { end ≤ 64 }
        requires positions { vec_len self.old.follow ≡ 64 }
        ensures { Lays (map formula atoms.now) (written (regular r.now)) end self.old self.new result }
    {
        let inner = unwrapped(r);
        let part = self.lay_piece(atoms, inner.piece, end);
        self.wrap(part, inner.starred, inner.optional)
    }

    #[cycle(laying)]
    fn lay_piece(&mut self, atoms: &[Expr], r: &Regex, end: usize) -> Part
        requires room { length (brackets (written (regular r.now))) ≤ end }
        requires few { end ≤ 64 }
        requires positions { vec_len self.old.follow ≡ 64 }
        ensures { Lays (map formula atoms.now) (written (regular r.now)) end self.old self.new result }
    {
        match r {
            Regex::Atom(e) => self.lay_bracket(atoms, e, end),
            Regex::Cat(rs) => self.lay_in_turn(atoms, rs, end),
            Regex::Alt(rs) => self.lay_besides(atoms, rs, end),
            Regex::Repeat(a, low, high) => self.lay_repeated(atoms, a, *low, *high, end),
        }
    }

    #[cycle(laying)]
    fn lay_in_turn(&mut self, atoms: &[Expr], rs: &[Regex], end: usize) -> Part
        requires room { length (brackets (written_in_turn (regulars (map regular rs.now)))) ≤ end }
        requires few { end ≤ 64 }
        requires positions { vec_len self.old.follow ≡ 64 }
        ensures { Lays (map formula atoms.now) (written_in_turn (regulars (map regular rs.now))) end self.old self.new result }
    {
        let mut rest = Part::EMPTY;
        for k in 0..rs.len() {
            let first = self.lay(atoms, &rs[rs.len() - 1 - k], end - rest.size);
            self.link(first.lasts, rest.firsts);
            rest = first.then(rest);
        }
        rest
    }

    #[cycle(laying)]
    fn lay_besides(&mut self, atoms: &[Expr], rs: &[Regex], end: usize) -> Part
        requires room { length (brackets (written_besides (regulars (map regular rs.now)))) ≤ end }
        requires few { end ≤ 64 }
        requires positions { vec_len self.old.follow ≡ 64 }
        ensures { Lays (map formula atoms.now) (written_besides (regulars (map regular rs.now))) end self.old self.new result }
    {
        if rs.is_empty() {
            return Part::EMPTY;
        }
        let mut rest = self.lay(atoms, &rs[rs.len() - 1], end);
        for k in 1..rs.len() {
            let first = self.lay(atoms, &rs[rs.len() - 1 - k], end - rest.size);
            rest = first.either(rest);
        }
        rest
    }

    // Where the piece has no position, nothing is laid.
    #[cycle(laying)]
    fn lay_repeated(
        &mut self,
        atoms: &[Expr],
        a: &Regex,
        low: u16,
        high: Option<u16>,
        end: usize,
    ) -> Part
        requires room { length (brackets (repeated (written (regular a.now)) low high)) ≤ end }
        requires few { end ≤ 64 }
        requires positions { vec_len self.old.follow ≡ 64 }
        ensures { Lays (map formula atoms.now) (repeated (written (regular a.now)) low high) end self.old self.new result }
    {
        if positions_in(a) == 0 {
            return Part {
                skipped: can_be_skipped(a) | (low == 0),
                ..Part::EMPTY
            };
        }
        let tail = self.lay_tail(atoms, a, low, high, end);
        self.lay_copies(atoms, a, low, tail, end)
    }

    #[cycle(laying)]
    fn lay_tail(
        &mut self,
        atoms: &[Expr],
        a: &Regex,
        low: u16,
        high: Option<u16>,
        end: usize,
    ) -> Part
        requires room { length (brackets (tail_of (written (regular a.now)) low high)) ≤ end }
        requires few { end ≤ 64 }
        requires positions { vec_len self.old.follow ≡ 64 }
        ensures { Lays (map formula atoms.now) (tail_of (written (regular a.now)) low high) end self.old self.new result }
    {
        match high {
            None => {
                let piece = self.lay(atoms, a, end);
                self.link(piece.lasts, piece.firsts);
                piece.skippable()
            }
            Some(high) => self.lay_optional(atoms, a, high.saturating_sub(low), end),
        }
    }

    #[cycle(laying)]
    fn lay_optional(&mut self, atoms: &[Expr], a: &Regex, count: u16, end: usize) -> Part
        requires room { length (brackets (copies count (Either (written (regular a.now)) Empty) Empty)) ≤ end }
        requires few { end ≤ 64 }
        requires positions { vec_len self.old.follow ≡ 64 }
        ensures { Lays (map formula atoms.now) (copies count (Either (written (regular a.now)) Empty) Empty) end self.old self.new result }
    {
        let mut rest = Part::EMPTY;
        for k in 0..count {
            let piece = self.lay(atoms, a, end - rest.size).skippable();
            self.link(piece.lasts, rest.firsts);
            rest = piece.then(rest);
        }
        rest
    }

    // So many copies before what stands there already.
    #[cycle(laying)]
    fn lay_copies(&mut self, atoms: &[Expr], a: &Regex, count: u16, tail: Part, end: usize) -> Part
        requires few { end ≤ 64 }
        requires positions { vec_len self.old.follow ≡ 64 }
        requires room { count * length (brackets (written (regular a.now))) + tail.size ≤ end }
        ensures { LaysCopies (map formula atoms.now) (written (regular a.now)) count tail end self.old self.new result }
    {
        let mut rest = tail;
        for k in 0..count {
            let piece = self.lay(atoms, a, end - rest.size);
            self.link(piece.lasts, rest.firsts);
            rest = piece.then(rest);
        }
        rest
    }
}
