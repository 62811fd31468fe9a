//! What holds of the replies to sessions, whatever the code does.

ghost use Rattle.std.specs.Prelude.{◌≡◌, List, ℕ};
ghost use Rattle.spec_model.specs.Syntax.{Specification};
ghost use Rattle.spec_model.specs.WellTyped.{WellTyped};
ghost use Rattle.spec_model.specs.Games.{GameData};
ghost use Rattle.gr1_law.specs.Layers.{LayerSets};
ghost use Rattle.many_sessions.specs.Solo.{Session, IsSolo};
ghost use Rattle.many_sessions.specs.Talks.{Turn, texts_of, replies_of, IsServed};

/// The texts of one session have one list of replies.
pub fn replies_to_a_session_are_one_list()
    ensures { (s : Specification) (g : GameData) (l : LayerSets) (texts replies others : List (List ℕ)) (last end : Session) → WellTyped s
        → IsSolo s g l texts replies last → IsSolo s g l texts others end → replies ≡ others }
{}

/// Two talks that agree on the texts of a session give it the same replies, whatever the other sessions are.
pub fn no_session_is_told_of_another()
    ensures { (s : Specification) (g : GameData) (l : LayerSets) (j k n : ℕ) (turns others : List Turn) → WellTyped s
        → IsServed s g l j n turns → IsServed s g l k n others → texts_of n turns ≡ texts_of n others → replies_of n turns ≡ replies_of n others }
{}
