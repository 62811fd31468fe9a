ghost use Rattle.std.specs.Prelude.{◌≡◌, ◌≢◌, ◌+◌, ◌*◌, ◌^◌, ◌<◌, ◌≤◌, ◌∷◌, ◌++◌, [], ℕ, List, map, take, length, nat_lt, true, false, slice_index_or, IfOk};
ghost use Rattle.std.specs.List.{list_all, list_any};
ghost use Rattle.spec_model.specs.declared.value.Value.{Value};
ghost use Rattle.spec_model.specs.Views.{domain_data, variable_data};
ghost use Rattle.spec_model.specs.GameViews.{game_data, hidden_data};
ghost use Rattle.spec_model.specs.Values.{DomainData, is_assignment, same_value, values_of, rank_of};
ghost use Rattle.spec_model.specs.WellMade.{WellMade, is_domain};
ghost use Rattle.spec_model.specs.DiagramReads.{bits_of};
ghost use Rattle.spec_model.specs.Moves.{is_of, domains_of};
ghost use Rattle.game_values.specs.declared.seen.At.{At};
ghost use Rattle.bit_compile.specs.Domains.{state_domains, table_domain, level_count};
ghost use Rattle.bit_compile.specs.Laid.{IsCountable, AreLaidOut, IsOutside};
ghost use Rattle.bit_compile.specs.Making.{Makes};
ghost use Rattle.bit_compile.specs.Codes.{HasValues, has_number, domain_in, width_at, level_at};
ghost use Rattle.bit_compile.specs.Crowding.{HasCause};
ghost use Rattle.bit_compile.specs.NamedCodes.{IsOfNumber};

use crate::OutOfMemory;
use crate::domains::{code, copy, domain_of, size};
use crate::named::number;
use crate::numbers::{width_for, write_number};
use crate::slots::Slot;
use bdd_bits::{Diagrams, Root};
use game_values::seen::At;
use regions::Halt;
use spec_model::game::{Game, Hidden};
use spec_model::value::{Domain, Owner, Value, Var};
use std::alloc::{AllocError, Global};
use std::marker::Model;

/// Whether an owner is this one.
fn owns(owner: Owner, of: Owner) -> bool
    ensures { result ≡ is_of owner of }
{
    owner == of
}

/// The bits of each hidden table and of each variable, inputs first, in the order of a state.
#[derive(Drop)]
pub struct Codes {
    domains: Vec<Domain>,
    slots: Vec<Slot>,
    levels: u32,
}

impl Model for Codes {
    ghost Value = { List DomainData };

    ghost view = { λ c. map domain_data c.domains.items };

    ghost invariant = { λ c. AreLaidOut (map domain_data c.domains.items) c.slots.items c.levels };
}

impl Codes {
    /// No slot yet.
    fn nothing(alloc: Global) -> Codes
        ensures { result ≡ [] }
    {
        Codes {
            domains: Vec::new(alloc),
            slots: Vec::new(alloc),
            levels: 0,
        }
    }

    /// One slot more, after the others. Want of a number for a level is want of memory.
    fn with(mut self, domain: Domain) -> Result<Codes, OutOfMemory>
        requires { IsCountable (domain_data domain) }
        ensures { IfOk result (λ codes. codes ≡ self ++ domain_data domain ∷ []) }
    {
        let width = width_for(size(&domain));
        let slot = Slot {
            first: self.levels,
            width,
        };
        let levels = self.levels.checked_add(2 * width).ok_or(AllocError)?;
        let mut domains = self.domains;
        let mut slots = self.slots;
        domains.push(domain)?;
        slots.push(slot)?;
        Ok(Codes {
            domains,
            slots,
            levels,
        })
    }

    /// The slots of hidden tables, after the others.
    fn with_tables(self, hidden: &[Hidden]) -> Result<Codes, OutOfMemory>
        requires { list_all (λ h. nat_lt 0 h.values) (map hidden_data hidden.now) ≡ true }
        ensures { IfOk result (λ codes. codes ≡ self ++ map table_domain (map hidden_data hidden.now)) }
    {
        let mut codes = self;
        for h in hidden {
            codes = codes.with(domain_of(h))?;
        }
        Ok(codes)
    }

    /// The slots of an owner's variables, after the others.
    fn with_variables(self, alloc: Global, vars: &[Var], owner: Owner) -> Result<Codes, OutOfMemory>
        requires { list_all (λ v. is_domain v.domain) (map variable_data vars.now) ≡ true }
        ensures { IfOk result (λ codes. codes ≡ self ++ domains_of (is_of owner) (map variable_data vars.now)) }
    {
        let mut codes = self;
        for v in vars {
            if owns(owner, v.owner) {
                codes = codes.with(copy(alloc, &v.domain)?)?;
            }
        }
        Ok(codes)
    }

    /// The bits of a game's states.
    pub fn make(alloc: Global, game: &Game) -> Result<Codes, OutOfMemory>
        requires made { WellMade (game_data game.now) }
        ensures domains { IfOk result (λ codes. codes ≡ state_domains (game_data game.now)) }
    {
        let tables = Codes::nothing(alloc).with_tables(&game.hidden)?;
        let inputs = tables.with_variables(alloc, &game.vars, Owner::Env)?;
        inputs.with_variables(alloc, &game.vars, Owner::Sys)
    }

    /// How many levels the bits of a state and of the next one have.
    pub fn levels(&self) -> u32
        ensures { result ≡ level_count self.now }
    {
        self.levels
    }

    /// How many hidden tables and variables a state has.
    pub fn count(&self) -> usize
        ensures { result ≡ length self.now }
    {
        self.slots.len()
    }

    /// The domain at this place of a state.
    pub fn domain(&self, k: usize) -> &Domain
        requires { k < length self.now }
        ensures domain { domain_data result.now ≡ domain_in self.now k }
        ensures countable { IsCountable (domain_data result.now) }
    {
        &self.domains[k]
    }

    /// The allocator.
    pub fn alloc(&self) -> Global {
        *self.domains.allocator()
    }

    /// The bits of the hidden table or variable at this place of a state.
    fn slot(&self, k: usize) -> Slot
        requires { k < length self.now }
        ensures first { result.first ≡ level_count (take k self.now) }
        ensures width { result.width ≡ width_at self.now k }
        ensures within { result.first + 2 * result.width ≤ level_count self.now }
        ensures levels { level_count self.now < 2 ^ 32 }
        ensures narrow { result.width ≤ 64 }
    {
        self.slots[k]
    }

    /// How many bits the hidden table or variable at this place of a state has, and as many for the next one.
    pub fn width(&self, k: usize) -> u32
        requires { k < length self.now }
        ensures width { result ≡ width_at self.now k }
        ensures narrow { result ≤ 64 }
    {
        self.slot(k).width
    }

    /// The level of the first of its present bits, or of its next bits.
    pub fn level(&self, at: At, k: usize) -> u32
        requires { k < length self.now }
        ensures level { result ≡ level_at self.now at k }
        ensures within { result + width_at self.now k ≤ level_count self.now }
        ensures few { level_count self.now < 2 ^ 32 }
    {
        let slot = self.slot(k);
        match at {
            At::Now => slot.first,
            At::Next => slot.first + slot.width,
        }
    }

    /// The diagram that is true where the hidden table or variable at this place of a state has the value with this
    /// code, at present or next.
    pub fn has_code(
        &self,
        diagrams: &mut Diagrams,
        at: At,
        k: usize,
        n: usize,
    ) -> Result<Root, Halt>
        requires known { k < length self.now }
        requires levels { level_count self.now ≤ diagrams.old.state.table.levels }
        ensures made { Makes diagrams.old diagrams.new result (has_number (level_at self.now at k) (width_at self.now k) n) }
        ensures cause { HasCause diagrams.old diagrams.new result (IsOfNumber (level_at self.now at k) (width_at self.now k) n) }
    {
        number(diagrams, self.level(at, k), self.width(k), n)
    }

    /// Writes the bits of one value of a state.
    fn write_value(&self, at: At, k: usize, value: Value, bits: &mut [bool])
        requires known { k < length self.now }
        requires among { list_any (same_value value) (values_of (domain_in self.now k)) ≡ true }
        requires room { length bits.old ≡ level_count self.now }
        ensures written { has_number (level_at self.now at k) (width_at self.now k) (rank_of (domain_in self.now k) value) (bits_of bits.new) ≡ true }
        ensures others { (m : ℕ) → IsOutside self.now at k m → slice_index_or bits.new m false ≡ slice_index_or bits.old m false }
    {
        let n = code(&self.domains[k], value, 0);
        write_number(bits, self.level(at, k) as usize, self.width(k), n);
    }

    /// Writes the present or the next bits of a state, which is the values of its hidden tables, inputs and outputs.
    pub fn write(&self, at: At, state: &[Value], bits: &mut [bool])
        requires state { is_assignment self.now state.now ≡ true }
        requires room { length bits.old ≡ level_count self.now }
        ensures written { HasValues self.now at state.now (bits_of bits.new) }
        ensures keeps { (other : At) (values : List Value) → other ≢ at → HasValues self.now other values (bits_of bits.old) → HasValues self.now other values (bits_of bits.new) }
    {
        for k in 0..state.len() {
            self.write_value(at, k, state[k], bits);
        }
    }
}
