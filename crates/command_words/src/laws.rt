//! What holds of the words of every command line.

ghost use Rattle.std.specs.Prelude.{◌≡◌, ℕ, List, map, string_bytes};
ghost use Rattle.command_words.specs.Commands.{Asks, AsksArbiter};
ghost use Rattle.command_words.specs.declared.words.Command.{Command};

/// Words ask for at most one command, file and number.
pub fn words_ask_for_one_thing(words: &[String])
    ensures { (a b : Command) (file other : List ℕ) (nodes more : ℕ) →
        Asks (map string_bytes words.now) a file nodes → Asks (map string_bytes words.now) b other more →
        (a ≡ b) × (file ≡ other) × (nodes ≡ more) }
{}

/// Words ask for at most one number of clients and of nodes.
pub fn words_ask_for_one_arbiter(words: &[String])
    ensures { (clients other nodes more : ℕ) →
        AsksArbiter (map string_bytes words.now) clients nodes → AsksArbiter (map string_bytes words.now) other more →
        (clients ≡ other) × (nodes ≡ more) }
{}

/// No words ask for a file and an arbiter.
pub fn words_ask_for_a_file_or_an_arbiter(words: &[String])
    ensures { (command : Command) (file : List ℕ) (nodes clients more : ℕ) →
        Asks (map string_bytes words.now) command file nodes → ¬ (AsksArbiter (map string_bytes words.now) clients more) }
{}
