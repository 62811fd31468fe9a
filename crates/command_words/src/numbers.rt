//! The numbers that words give: a budget of nodes, and how many clients an arbiter has.

ghost use Rattle.std.specs.Prelude.{◌<◌, ◌^◌, ℕ, MatchOption, SomeIff, option_map};
ghost use Rattle.std.specs.Str.Parse.{IsNumeral, digits_value};
ghost use Rattle.command_words.specs.Commands.{IsBudget, IsClients};

const LEAST: u32 = 2;

const MOST: u32 = 134_217_728;

const DEFAULT: u32 = 4_194_304;

const MOST_CLIENTS: u32 = 64;

// The number that decimal digits write, where a word is such and the number fits. `parse` alone takes a sign too.
fn number_of(word: &str) -> Option<u32>
    ensures { SomeIff result (IsNumeral 10 word.now × (digits_value 10 word.now < 2 ^ 32)) (digits_value 10 word.now) }
{
    if word.starts_with('+') {
        None
    } else {
        word.parse::<u32>().ok()
    }
}

/// The budget that a word gives, or that stands where there is none.
pub fn budget_of(word: Option<&str>) -> Option<u32>
    ensures { MatchOption result ((nodes : ℕ) → ¬ (IsBudget (option_map (λ w. w.now) word.entry) nodes))
        (IsBudget (option_map (λ w. w.now) word.entry)) }
{
    let Some(word) = word else {
        return Some(DEFAULT);
    };
    match number_of(word)? {
        nodes @ LEAST..=MOST => Some(nodes),
        _ => None,
    }
}

/// How many clients a word gives.
pub fn clients_of(word: &str) -> Option<u32>
    ensures { MatchOption result ((clients : ℕ) → ¬ (IsClients word.now clients)) (IsClients word.now) }
{
    match number_of(word)? {
        clients @ 1..=MOST_CLIENTS => Some(clients),
        _ => None,
    }
}
