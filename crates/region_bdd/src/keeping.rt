//! What becomes of a diagram that a call made, or was refused.

ghost use Rattle.std.specs.Prelude.{◌≡◌, ◌<◌, None, vec_len, vec_capacity};
ghost use Rattle.region_bdd.specs.Asking.{SettlesAnswer};
ghost use Rattle.region_bdd.specs.Keeping.{Settles, SettlesOutputs};
ghost use Rattle.region_bdd.specs.Leading.{SettlesInputs};

use crate::own::Refused;
use crate::slots::{BddMove, BddRegion, Content, Slots};
use bdd_bits::Root;
use regions::{Halt, When};

/// Puts a region's diagram into a slot, or tells why there is none.
pub fn settle(
    slots: &mut Slots,
    refused: &mut Option<Refused>,
    made: Result<Root, Halt>,
    why: Refused,
) -> Result<BddRegion, Halt>
    requires room { vec_len slots.old.slots < vec_capacity slots.old.slots }
    requires unspent { refused.old ≡ None }
    ensures { Settles slots.old.slots.items slots.new.slots.items refused.new made result why }
{
    match made {
        Ok(root) => {
            let slot = slots.keep(Content::Region(root));
            Ok(BddRegion { slot })
        }
        Err(Halt::Memory) => Err(Halt::Memory),
        Err(Halt::Budget) => {
            *refused = Some(why);
            Err(Halt::Budget)
        }
    }
}

/// Puts the target's diagram of moves that give outputs into a slot, or tells why there is none.
pub fn settle_outputs(
    slots: &mut Slots,
    refused: &mut Option<Refused>,
    made: Result<Root, Halt>,
    when: When,
    why: Refused,
) -> Result<BddMove, Halt>
    requires room { vec_len slots.old.slots < vec_capacity slots.old.slots }
    requires unspent { refused.old ≡ None }
    ensures { SettlesOutputs slots.old.slots.items slots.new.slots.items refused.new made result when why }
{
    match made {
        Ok(root) => {
            let slot = slots.keep(Content::Outputs(when, root));
            Ok(BddMove { slot })
        }
        Err(Halt::Memory) => Err(Halt::Memory),
        Err(Halt::Budget) => {
            *refused = Some(why);
            Err(Halt::Budget)
        }
    }
}

/// Puts the diagrams of moves that give inputs into a slot, or tells why there are none.
pub fn settle_inputs(
    slots: &mut Slots,
    refused: &mut Option<Refused>,
    made: Result<(Root, Root), Halt>,
    when: When,
    why: Refused,
) -> Result<BddMove, Halt>
    requires room { vec_len slots.old.slots < vec_capacity slots.old.slots }
    requires unspent { refused.old ≡ None }
    ensures { SettlesInputs slots.old.slots.items slots.new.slots.items refused.new made result when why }
{
    match made {
        Ok((root, leads)) => {
            let slot = slots.keep(Content::Inputs(when, root, leads));
            Ok(BddMove { slot })
        }
        Err(Halt::Memory) => Err(Halt::Memory),
        Err(Halt::Budget) => {
            *refused = Some(why);
            Err(Halt::Budget)
        }
    }
}

/// Hands an answer on, or tells why there is none.
pub fn settle_answer(
    refused: &mut Option<Refused>,
    made: Result<bool, Halt>,
    why: Refused,
) -> Result<bool, Halt>
    requires { refused.old ≡ None }
    ensures { SettlesAnswer refused.new made result why }
{
    match made {
        Ok(yes) => Ok(yes),
        Err(Halt::Memory) => Err(Halt::Memory),
        Err(Halt::Budget) => {
            *refused = Some(why);
            Err(Halt::Budget)
        }
    }
}
