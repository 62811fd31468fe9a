//! The tables of the reserved words and the signs.

ghost use Rattle.std.specs.Prelude.{◌≡◌, map};
ghost use Rattle.spectra_trees.specs.Classes.{class_in as class_in_lem, sign_class as sign_class_lem, word_class as word_class_lem};

use crate::class::Class;

/// The reserved words, each with what it is for the grammar.
const WORDS: [(&str, Class); 50] = [
    ("spec", Class::Head),
    ("module", Class::Head),
    ("import", Class::Import),
    ("env", Class::Env),
    ("sys", Class::Sys),
    ("aux", Class::Aux),
    ("boolean", Class::Boolean),
    ("Int", Class::Int),
    ("type", Class::TypeWord),
    ("var", Class::Var),
    ("define", Class::Define),
    ("predicate", Class::Predicate),
    ("pattern", Class::Pattern),
    ("monitor", Class::Monitor),
    ("asm", Class::Asm),
    ("assumption", Class::Asm),
    ("gar", Class::Gar),
    ("guarantee", Class::Gar),
    ("ini", Class::Ini),
    ("initially", Class::Ini),
    ("alw", Class::Alw),
    ("always", Class::Alw),
    ("G", Class::Alw),
    ("trans", Class::Alw),
    ("alwEv", Class::AlwEv),
    ("alwaysEventually", Class::AlwEv),
    ("GF", Class::AlwEv),
    ("trig", Class::Trig),
    ("next", Class::Next),
    ("true", Class::True),
    ("false", Class::False),
    ("mod", Class::Mod),
    ("forall", Class::ForAll),
    ("exists", Class::Exists),
    ("in", Class::In),
    ("not", Class::Not),
    ("and", Class::And),
    ("or", Class::Or),
    ("implies", Class::Implies),
    ("iff", Class::Iff),
    ("PREV", Class::Prev),
    ("Y", Class::Prev),
    ("ONCE", Class::Once),
    ("O", Class::Once),
    ("HISTORICALLY", Class::Historically),
    ("H", Class::Historically),
    ("SINCE", Class::Since),
    ("S", Class::Since),
    ("TRIGGERED", Class::Triggered),
    ("T", Class::Triggered),
];

/// The signs, each with what it is for the grammar.
const SIGNS: [(&str, Class); 27] = [
    ("->", Class::Implies),
    ("<->", Class::Iff),
    ("|=>", Class::Then),
    (":=", Class::Becomes),
    ("..", Class::UpTo),
    ("=", Class::Equal),
    ("!=", Class::Unequal),
    ("<", Class::Less),
    ("<=", Class::AtMost),
    (">", Class::Greater),
    (">=", Class::AtLeast),
    ("+", Class::Plus),
    ("-", Class::Minus),
    ("*", Class::Star),
    ("!", Class::Not),
    ("&", Class::And),
    ("|", Class::Bar),
    ("?", Class::Question),
    (":", Class::Colon),
    (";", Class::Semicolon),
    (",", Class::Comma),
    ("(", Class::Open),
    (")", Class::Close),
    ("[", Class::OpenBracket),
    ("]", Class::CloseBracket),
    ("{", Class::OpenBrace),
    ("}", Class::CloseBrace),
];

/// The class of the first row of a text.
fn class_in(rows: &[(&str, Class)], text: &str) -> Class
    ensures { result ≡ class_in_lem (map (λ row. (row.0.now, row.1)) rows.now) text.now }
{
    for &(spelling, class) in rows {
        if text == spelling {
            return class;
        }
    }
    Class::Unknown
}

/// Which reserved word a text is.
#[tactic(auto, unfolding(crate::specs::Classes::word_class))]
pub fn word_class(text: &str) -> Class
    ensures { result ≡ word_class_lem text.now }
{
    class_in(&WORDS, text)
}

/// Which sign a text is.
#[tactic(auto, unfolding(crate::specs::Classes::sign_class))]
pub fn sign_class(text: &str) -> Class
    ensures { result ≡ sign_class_lem text.now }
{
    class_in(&SIGNS, text)
}
