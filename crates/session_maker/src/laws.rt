//! Laws of the sessions that are made. Each function does nothing; its clause is the law.
ghost use Rattle.session_maker.specs.Laws.{MakesSessions, MakesCalls};

/// The session that is made is within the limits of sessions.
pub fn makes_sessions()
    ensures { MakesSessions }
{}

/// The session that is made has so many calls for each client.
pub fn makes_calls()
    ensures { MakesCalls }
{}
