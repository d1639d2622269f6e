//! A law of the definitions. The function does nothing; its clause is the law.
ghost use Rattle.session_script.specs.Laws.{WholeWhereAll};

/// Entries are the whole list of a client's calls exactly where they are the first of them, and as many as the client has.
pub fn whole_where_all()
    ensures { WholeWhereAll }
{}
