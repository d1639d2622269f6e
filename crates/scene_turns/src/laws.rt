//! A law of changed scenes. The function does nothing; its clause is the law.
ghost use Rattle.scene_turns.specs.Changes.{ChangeLaw};

/// A sweep that carries pixels and then one that fills with the backdrop change the scene as a step asks.
pub fn scenes_are_changed()
    ensures { ChangeLaw }
{}
