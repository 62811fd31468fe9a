//! Which past operators a specification has.

ghost use Rattle.std.specs.Prelude.{◌≡◌, map, flat_map, IfOk, OnOk};
ghost use Rattle.spec_model.specs.Views.{formula, regular, content_data, spec_data};
ghost use Rattle.spec_model.specs.Sizes.{past_trees, past_trees_of_all, atoms_of, atoms_of_all, formulas_of, past_operators};
ghost use Rattle.spec_model.specs.Syntax.{regulars, TriggerUse};
ghost use Rattle.game_values.specs.Safety.{formulas_in};
ghost use Rattle.past_bits.specs.Entries.{added};
ghost use Rattle.past_bits.specs.Bits.{tree_of};

use crate::operators::Operators;
use spec_model::expr::{Expr, Regex};
use spec_model::spec::{Body, Spec};
use std::alloc::{AllocError, Global};

impl<'a> Operators<'a> {
    #[tactic(auto, using(crate::proofs::Places::added_parts))]
    /// Adds the operators of an expression.
    #[cycle(collecting)]
    fn collect(&mut self, e: &'a Expr) -> Result<(), AllocError>
        ensures { OnOk result (map tree_of self.new ≡ added (map tree_of self.old) (past_trees (formula e.now))) }
    {
        match e {
            Expr::Const(_) | Expr::Var(_) | Expr::Table(_, _) => Ok(()),
            Expr::Next(a) => self.collect(a),
            Expr::Not(a) => self.collect(a),
            Expr::Mod(a, _) => self.collect(a),
            Expr::And(es) => self.collect_each(es),
            Expr::Or(es) => self.collect_each(es),
            Expr::Implies(a, b) => self.collect_two(a, b),
            Expr::Iff(a, b) => self.collect_two(a, b),
            Expr::Cmp(_, a, b) => self.collect_two(a, b),
            Expr::Add(a, b) => self.collect_two(a, b),
            Expr::Sub(a, b) => self.collect_two(a, b),
            Expr::Mul(a, b) => self.collect_two(a, b),
            Expr::Past(op, es) => {
                self.collect_each(es)?;
                self.add(*op, es)
            }
        }
    }

    #[tactic(auto, using(crate::proofs::Places::added_parts))]
    #[cycle(collecting)]
    fn collect_two(&mut self, a: &'a Expr, b: &'a Expr) -> Result<(), AllocError>
        ensures { OnOk result (map tree_of self.new ≡ added (added (map tree_of self.old) (past_trees (formula a.now))) (past_trees (formula b.now))) }
    {
        self.collect(a)?;
        self.collect(b)
    }

    #[tactic(auto, using(crate::proofs::Places::added_parts))]
    #[cycle(collecting)]
    fn collect_each(&mut self, es: &'a [Expr]) -> Result<(), AllocError>
        ensures { OnOk result (map tree_of self.new ≡ added (map tree_of self.old) (past_trees_of_all (formulas_in es.now))) }
    {
        for e in es {
            self.collect(e)?;
        }
        Ok(())
    }

    #[tactic(auto, using(crate::proofs::Collected::listed_parts))]
    /// Adds the operators of several expressions.
    fn collect_list(&mut self, es: &'a [Expr]) -> Result<(), AllocError>
        ensures { OnOk result (map tree_of self.new ≡ added (map tree_of self.old) (flat_map past_trees (map formula es.now))) }
    {
        self.collect_each(es)
    }

    #[tactic(auto, using(crate::proofs::Places::added_parts))]
    /// Adds the operators in a regular expression. Repeats around one another are a loop.
    #[cycle(regexes)]
    fn collect_regex(&mut self, r: &'a Regex) -> Result<(), AllocError>
        ensures { OnOk result (map tree_of self.new ≡ added (map tree_of self.old) (flat_map past_trees (atoms_of (regular r.now)))) }
    {
        let mut part = r;
        'repeats: loop {
            match part {
                Regex::Atom(e) => return self.collect(e),
                Regex::Cat(rs) => return self.collect_regexes(rs),
                Regex::Alt(rs) => return self.collect_regexes(rs),
                Regex::Repeat(inner, _, _) => part = inner,
            }
        }
    }

    #[tactic(auto, using(crate::proofs::Places::added_parts))]
    #[cycle(regexes)]
    fn collect_regexes(&mut self, rs: &'a [Regex]) -> Result<(), AllocError>
        ensures { OnOk result (map tree_of self.new ≡ added (map tree_of self.old) (flat_map past_trees (atoms_of_all (regulars (map regular rs.now))))) }
    {
        for r in rs {
            self.collect_regex(r)?;
        }
        Ok(())
    }

    #[tactic(auto, using(crate::proofs::Collected::trigger_parts))]
    /// Adds the operators of a trigger, of its cause before those of its effect.
    fn collect_trigger(&mut self, spec: &'a Spec, t: usize) -> Result<(), AllocError>
        ensures { OnOk result (map tree_of self.new ≡ added (map tree_of self.old) (flat_map past_trees (formulas_of (spec_data spec.now) (TriggerUse t)))) }
    {
        if t < spec.triggers.len() {
            let trigger = &spec.triggers[t];
            self.collect_regex(&trigger.cause)?;
            self.collect_regex(&trigger.effect)?;
        }
        Ok(())
    }

    #[tactic(auto, using(crate::proofs::Collected::listed_parts))]
    /// Adds the operators of a line.
    fn collect_line(&mut self, spec: &'a Spec, body: &'a Body) -> Result<(), AllocError>
        ensures { OnOk result (map tree_of self.new ≡ added (map tree_of self.old) (flat_map past_trees (formulas_of (spec_data spec.now) (content_data body.now)))) }
    {
        match body {
            Body::Initial(e) => self.collect(e),
            Body::Safety(e) => self.collect(e),
            Body::Recurring(e) => self.collect(e),
            Body::Pattern(_, arguments) => self.collect_list(arguments),
            Body::Trigger(t) => self.collect_trigger(spec, *t as usize),
        }
    }

    #[tactic(auto, using(crate::proofs::Collected::lines_parts))]
    /// The past operators of a specification, each once, those within others first and by first meeting in text order.
    pub fn of_spec(alloc: Global, spec: &'a Spec) -> Result<Operators<'a>, AllocError>
        ensures { IfOk result (λ operators. map tree_of operators ≡ past_operators (spec_data spec.now)) }
    {
        let mut operators = Operators::new(alloc);
        for line in &spec.lines {
            operators.collect_line(spec, &line.body)?;
        }
        Ok(operators)
    }
}
