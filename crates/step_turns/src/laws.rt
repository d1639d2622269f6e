//! A law of published states. The function does nothing; its clause is the law.
ghost use Rattle.step_turns.specs.Publishes.{PublishesLaw};

use turn_logs::tables_are_published;

/// The opening words publish the opening state. Words that publish a state do so where one more client is admitted, and they
/// are a table, that of the state.
pub fn words_publish_states()
    ensures { PublishesLaw }
{
    tables_are_published();
}
