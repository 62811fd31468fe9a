//! The hidden tables of a specification.

ghost use Rattle.std.specs.Prelude.{◌≡◌, ◌++◌, map, option_map, IfOk, OnOk};
ghost use Rattle.std.specs.Option.{option_to_list};
ghost use Rattle.spec_model.specs.Syntax.{PatternUse, TriggerUse};
ghost use Rattle.spec_model.specs.Views.{formula, content_data, pattern_data, trigger_data, spec_data};
ghost use Rattle.spec_model.specs.GameViews.{hidden_data};
ghost use Rattle.spec_model.specs.WellTyped.{WellTyped};
ghost use Rattle.pattern_rows.specs.Laws.{HasTable};
ghost use Rattle.pattern_rows.specs.Rows.{rows_of};
ghost use Rattle.trigger_dfa.specs.Narrow.{IsNarrow};
ghost use Rattle.trigger_dfa.specs.Standings.{table_of};
ghost use Rattle.hidden_game.specs.GameOf.{entered_table, table_for, tables_for, hidden_of};
ghost use Rattle.hidden_game.specs.Sources.{IsSource, IsKept, AreKept};

use crate::source::Source;
use pattern_rows::{RowFault, rows};
use spec_model::expr::Expr;
use spec_model::game::Hidden;
use spec_model::spec::{Body, Pattern, Trigger};
use std::alloc::{AllocError, Global};
use trigger_dfa::{DfaFault, build};

fn copy_truths(alloc: Global, tables: &[Vec<bool>]) -> Result<Vec<Vec<bool>>, AllocError>
    ensures { IfOk result (λ copies. map (λ t. t.items) copies.items ≡ map (λ t. t.items) tables.now) }
{
    let mut copies = Vec::new(alloc);
    for table in tables {
        copies.push(Vec::from_slice(alloc, table)?)?;
    }
    Ok(copies)
}

/// A copy of a table, with other atoms.
fn with_atoms(alloc: Global, h: &Hidden, atoms: Vec<Expr>) -> Result<Hidden, AllocError>
    ensures { IfOk result (λ copy. hidden_data copy ≡ record (hidden_data h.now) { atoms = map formula atoms.items }) }
{
    Ok(Hidden {
        values: h.values,
        first: h.first,
        atoms,
        next: h.next.clone()?,
        tables: copy_truths(alloc, &h.tables)?,
    })
}

/// The rows of a pattern that has a table.
fn rows_of_pattern(alloc: Global, pattern: &Pattern) -> Result<Hidden, AllocError>
    requires { HasTable (pattern_data pattern.now) }
    ensures { IfOk result (λ h. hidden_data h ≡ rows_of (pattern_data pattern.now)) }
{
    match rows(alloc, pattern) {
        Ok(h) => Ok(h),
        Err(RowFault::Memory) => Err(AllocError),
        Err(RowFault::Open | RowFault::Wide) => unreachable!(),
    }
}

/// The table of a trigger that has one, with its brackets as they stand.
fn table_of_trigger(alloc: Global, trigger: &Trigger) -> Result<Hidden, AllocError>
    requires { IsNarrow (trigger_data trigger.now) }
    ensures { IfOk result (λ h. hidden_data h ≡ table_of (trigger_data trigger.now)) }
{
    match build(alloc, trigger) {
        Ok(h) => Ok(h),
        Err(DfaFault::Memory) => Err(AllocError),
        Err(DfaFault::Wide) => unreachable!(),
    }
}

/// For each pattern, that no rows are kept yet.
fn nothing_kept(alloc: Global, patterns: &[Pattern]) -> Result<Vec<Option<Hidden>>, AllocError>
    ensures kept { IfOk result (λ kept. AreKept (map pattern_data patterns.now) kept.items) }
{
    let mut kept = Vec::new(alloc);
    for k in 0..patterns.len() {
        kept.push(None)?;
    }
    Ok(kept)
}

fn add_table(hidden: &mut Vec<Hidden>, table: Option<Hidden>) -> Result<(), AllocError>
    ensures { OnOk result (map hidden_data hidden.new.items ≡ map hidden_data hidden.old.items ++ option_to_list (option_map hidden_data table)) }
{
    if let Some(h) = table {
        hidden.push(h)?;
    }
    Ok(())
}

impl<'a> Source<'a> {
    /// The table of a use of a pattern. The rows are worked out at the first use, and kept.
    fn table_of_use(
        &self,
        alloc: Global,
        pattern: &Pattern,
        kept: &mut Option<Hidden>,
        arguments: &[Expr],
    ) -> Result<Hidden, AllocError>
        requires source { IsSource self.now }
        requires table { HasTable (pattern_data pattern.now) }
        requires kept { IsKept (pattern_data pattern.now) kept.old }
        ensures table { IfOk result (λ h. hidden_data h ≡ entered_table (spec_data self.now.spec.now) (record (rows_of (pattern_data pattern.now)) { atoms = map formula arguments.now })) }
        ensures kept { IsKept (pattern_data pattern.now) kept.new }
    {
        let atoms = self.each_entered(alloc, arguments)?;
        match kept {
            Some(h) => with_atoms(alloc, h, atoms),
            None => {
                let h = rows_of_pattern(alloc, pattern)?;
                let table = with_atoms(alloc, &h, atoms)?;
                *kept = Some(h);
                Ok(table)
            }
        }
    }

    /// The table of a trigger, with entries in place of past operators.
    fn trigger_table(&self, alloc: Global, trigger: &Trigger) -> Result<Hidden, AllocError>
        requires source { IsSource self.now }
        requires narrow { IsNarrow (trigger_data trigger.now) }
        ensures { IfOk result (λ h. hidden_data h ≡ entered_table (spec_data self.now.spec.now) (table_of (trigger_data trigger.now))) }
    {
        let h = table_of_trigger(alloc, trigger)?;
        let atoms = self.each_entered(alloc, &h.atoms)?;
        Ok(Hidden {
            values: h.values,
            first: h.first,
            atoms,
            next: h.next,
            tables: h.tables,
        })
    }

    /// The table of a use of the pattern with this number.
    fn use_table(
        &self,
        alloc: Global,
        p: usize,
        arguments: &[Expr],
        kept: &mut [Option<Hidden>],
    ) -> Result<Option<Hidden>, AllocError>
        requires source { IsSource self.now }
        requires typed { WellTyped (spec_data self.now.spec.now) }
        requires kept { AreKept (spec_data self.now.spec.now).patterns kept.old }
        ensures table { IfOk result (λ h. option_map hidden_data h ≡ table_for (spec_data self.now.spec.now) (PatternUse p (map formula arguments.now))) }
        ensures kept { OnOk result (AreKept (spec_data self.now.spec.now).patterns kept.new) }
    {
        if p >= self.spec.patterns.len() {
            return Ok(None);
        }
        let pattern = &self.spec.patterns[p];
        let table = self.table_of_use(alloc, pattern, &mut kept[p], arguments)?;
        Ok(Some(table))
    }

    /// The table of the trigger with this number.
    fn table_at(&self, alloc: Global, t: usize) -> Result<Option<Hidden>, AllocError>
        requires source { IsSource self.now }
        requires typed { WellTyped (spec_data self.now.spec.now) }
        ensures table { IfOk result (λ h. option_map hidden_data h ≡ table_for (spec_data self.now.spec.now) (TriggerUse t)) }
    {
        if t >= self.spec.triggers.len() {
            return Ok(None);
        }
        let trigger = &self.spec.triggers[t];
        let table = self.trigger_table(alloc, trigger)?;
        Ok(Some(table))
    }

    /// The table of a line, if it uses a pattern or is a trigger.
    fn line_table(
        &self,
        alloc: Global,
        body: &Body,
        kept: &mut [Option<Hidden>],
    ) -> Result<Option<Hidden>, AllocError>
        requires source { IsSource self.now }
        requires typed { WellTyped (spec_data self.now.spec.now) }
        requires kept { AreKept (spec_data self.now.spec.now).patterns kept.old }
        ensures table { IfOk result (λ h. option_map hidden_data h ≡ table_for (spec_data self.now.spec.now) (content_data body.now)) }
        ensures kept { OnOk result (AreKept (spec_data self.now.spec.now).patterns kept.new) }
    {
        match body {
            Body::Pattern(p, arguments) => self.use_table(alloc, *p as usize, arguments, kept),
            Body::Trigger(t) => self.table_at(alloc, *t as usize),
            Body::Initial(_) | Body::Safety(_) | Body::Recurring(_) => Ok(None),
        }
    }

    /// Adds the tables of the lines that have one, in text order.
    fn add_line_tables(
        &self,
        alloc: Global,
        kept: &mut [Option<Hidden>],
        hidden: &mut Vec<Hidden>,
    ) -> Result<(), AllocError>
        requires source { IsSource self.now }
        requires typed { WellTyped (spec_data self.now.spec.now) }
        requires kept { AreKept (spec_data self.now.spec.now).patterns kept.old }
        ensures added { OnOk result (map hidden_data hidden.new.items
            ≡ map hidden_data hidden.old.items ++ tables_for (spec_data self.now.spec.now) (spec_data self.now.spec.now).lines) }
    {
        for line in &self.spec.lines {
            let table = self.line_table(alloc, &line.body, kept)?;
            add_table(hidden, table)?;
        }
        Ok(())
    }

    /// The tables of the past operators, and then those of the lines that have one, in text order.
    pub fn tables(&self, alloc: Global) -> Result<Vec<Hidden>, AllocError>
        requires source { IsSource self.now }
        requires typed { WellTyped (spec_data self.now.spec.now) }
        ensures { IfOk result (λ hidden. map hidden_data hidden.items ≡ hidden_of (spec_data self.now.spec.now)) }
    {
        let mut hidden = self.operators.tables(alloc)?;
        let mut kept = nothing_kept(alloc, &self.spec.patterns)?;
        self.add_line_tables(alloc, &mut kept, &mut hidden)?;
        Ok(hidden)
    }
}
