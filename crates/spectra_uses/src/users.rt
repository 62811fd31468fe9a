//! The definitions that use each definition.

ghost use Rattle.std.specs.Prelude.{◌≡◌, ◌∷◌, [], length, map, IfOk, OnOk};
ghost use Rattle.spectra_uses.specs.Users.{AddsUser, AreUsers};

use crate::marks::uses_at;
use std::alloc::{AllocError, Global};

// As many as there are definitions, and all are empty.
fn no_users(alloc: Global, uses: &[Vec<usize>]) -> Result<Vec<Vec<usize>>, AllocError>
    ensures { IfOk result (λ users. AreUsers (map (λ us. us.items) uses.now) (map (λ us. us.items) users.items) 0) }
{
    let mut users = Vec::new(alloc);
    while users.len() < uses.len() {
        users.push(Vec::new(alloc))?;
    }
    Ok(users)
}

// Adds a user of a definition.
fn add_user(users: &mut Vec<Vec<usize>>, user: usize, used: usize) -> Result<(), AllocError>
    ensures { OnOk result (AddsUser (map (λ us. us.items) users.old.items) (map (λ us. us.items) users.new.items) user (used ∷ [])) }
{
    if used < users.len() {
        users[used].push(user)?;
    }
    Ok(())
}

// Adds a user of each of several definitions.
fn add_to_each(users: &mut Vec<Vec<usize>>, user: usize, list: &[usize]) -> Result<(), AllocError>
    ensures { OnOk result (AddsUser (map (λ us. us.items) users.old.items) (map (λ us. us.items) users.new.items) user list.now) }
{
    for used in list {
        add_user(users, user, *used)?;
    }
    Ok(())
}

/// For each definition those that use it, by the uses of all. The error is that memory is short.
pub fn users_of(alloc: Global, uses: &[Vec<usize>]) -> Result<Vec<Vec<usize>>, AllocError>
    ensures { IfOk result (λ users. AreUsers (map (λ us. us.items) uses.now) (map (λ us. us.items) users.items) (length uses.now)) }
{
    let mut users = no_users(alloc, uses)?;
    for user in 0..uses.len() {
        add_to_each(&mut users, user, uses_at(uses, user))?;
    }
    Ok(users)
}
