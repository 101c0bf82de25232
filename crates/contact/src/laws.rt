//! Laws over the definitions. Their calls do nothing.
ghost use Rattle.contact.specs.Laws.{CapsuleHasDecided, CapsulesDecided};

/// Of two lawful capsules some point lies in both or none does, and a spot lies in a capsule or it
/// does not: one of the two can be told, wherever they lie.
pub fn sharing_is_decided()
    ensures spots { CapsuleHasDecided }
    ensures capsules { CapsulesDecided }
{}
