//! Laws of worlds.

ghost use Rattle.lgm_world.specs.Laws.{AreAppended, AreAnswered, WerePublished, ArePublished};
ghost use Rattle.lgm_world.specs.Laws.{AreEntered, NeverShrink, StayInOrder};

/// After any list of events an eye answers on the map of a prefix of the appended operations: of none, or of all that
/// had been appended at some earlier publication. It is the prefix that was published when the eye last entered, and a
/// prefix of those of its later entries. The call does nothing: its contract is the law.
pub fn eyes_answer_on_published_maps()
    ensures appended { AreAppended }
    ensures answered { AreAnswered }
    ensures were_published { WerePublished }
    ensures published { ArePublished }
    ensures entered { AreEntered }
    ensures never_shrink { NeverShrink }
    ensures in_order { StayInOrder }
{}
