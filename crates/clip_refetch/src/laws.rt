//! A law of clips. The function does nothing; its clause is the law.
ghost use Rattle.clip_refetch.specs.Clips.{FreshLaw};

/// A clip that a client keeps, and whose revision it has looked at in its turn, is the published row.
pub fn kept_clips_are_fresh()
    ensures { FreshLaw }
{}
