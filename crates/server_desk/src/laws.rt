//! A law of commands. The function does nothing; its clause is the law.
ghost use Rattle.server_desk.specs.OwnWindows.{OwnWindowLaw};

/// A command on the client's own window is done, where its origin, its request and the number of rectangles that each slot needs
/// are within the limits. So such a command that the desk answers isn't refused for another cause.
pub fn own_windows_are_served()
    ensures { OwnWindowLaw }
{}
