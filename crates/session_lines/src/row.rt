//! Variables with a value for each.

ghost use Rattle.std.specs.Prelude.{◌≡◌, ◌++◌, [], map, vec_len, IfOk};
ghost use Rattle.spec_model.specs.Moves.{is_env, is_of};
ghost use Rattle.spec_model.specs.Views.{variable_data};
ghost use Rattle.session_lines.specs.Plain.{are_plain};

use crate::make::push_vars_of;
use crate::plain::are_plain;
use sp_outside::OutOfMemory;
use spec_model::value::{Owner, Value, Var};
use std::alloc::Global;

/// Variables in declared order, and a value for each: what a line is read as, or what is shown on one.
///
/// `plain` tells that no word can be an item of two of them, so that a line with one item of each in their order reads as an
/// assignment.
#[derive(Drop)]
pub struct Row {
    pub vars: Vec<Var>,
    pub values: Vec<Value>,
    pub(crate) plain: bool,
    ghost places: { vec_len values ≡ vec_len vars },
    ghost plainly: { plain ≡ are_plain (map (λ v. v.name) (map variable_data vars.items)) },
}

impl Row {
    ghost use Rattle.std.specs.Prelude.{filter, not};

    /// The variables of an owner, each with some value.
    pub fn make(alloc: Global, vars: &[Var], owner: Owner) -> Result<Row, OutOfMemory>
        ensures { IfOk result (λ row. map variable_data row.vars.items ≡ filter (λ v. is_of owner v.owner) (map variable_data vars.now)) }
    {
        let mut copies = Vec::new(alloc);
        push_vars_of(alloc, &mut copies, vars, owner)?;
        Row::of(alloc, copies)
    }

    /// All variables, the inputs before the outputs, each with some value.
    pub fn make_for_all(alloc: Global, vars: &[Var]) -> Result<Row, OutOfMemory>
        ensures { IfOk result (λ row. map variable_data row.vars.items ≡ filter (λ v. is_env v.owner) (map variable_data vars.now) ++ filter (λ v. not (is_env v.owner)) (map variable_data vars.now)) }
    {
        let mut copies = Vec::new(alloc);
        push_vars_of(alloc, &mut copies, vars, Owner::Env)?;
        push_vars_of(alloc, &mut copies, vars, Owner::Sys)?;
        Row::of(alloc, copies)
    }

    /// No variables.
    pub fn make_for_none(alloc: Global) -> Result<Row, OutOfMemory>
        ensures { IfOk result (λ row. map variable_data row.vars.items ≡ []) }
    {
        Row::of(alloc, Vec::new(alloc))
    }

    // The variables, each with some value.
    fn of(alloc: Global, vars: Vec<Var>) -> Result<Row, OutOfMemory>
        ensures { IfOk result (λ row. row.vars.items ≡ vars.items) }
    {
        let values = vec![in alloc; Value::Bool(false); vars.len()]?;
        let plain = are_plain(&vars);
        Ok(Row {
            vars,
            values,
            plain,
        })
    }
}
