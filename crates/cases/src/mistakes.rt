//! What becomes of the list where a found boat is let go in another way than the rule's.
ghost use Rattle.cases.specs.Mistakes.{Mistakes};

/// Two other ways give another list than the rule's: the first loses a ring, the second calls a path a ring that is none.
pub fn mistakes_show()
    ensures { Mistakes }
{}
