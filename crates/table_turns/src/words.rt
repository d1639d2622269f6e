//! Single words of the published table.
ghost use Rattle.std.specs.Prelude.{◌≡◌, length, slice_set};
ghost use Rattle.region_table.specs.Numbers.{IsTableWord, first_pixel, stamp_at};
ghost use Rattle.display_lock.specs.Turns.{IsOpenServer, SameServerTurn};
ghost use Rattle.table_turns.specs.Writes.{OnlyTable, Sets};

use display_lock::ServerTurn;
use region_table::STAMP;

// Writes a table word.
#[inline(always)]
pub(crate) fn write_word(turn: &mut ServerTurn, word: u64, value: u64)
    requires open { IsOpenServer turn.old }
    requires word { IsTableWord word }
    ensures same { SameServerTurn turn.old turn.new }
    ensures open { IsOpenServer turn.new }
    ensures head { OnlyTable turn.old.head.now turn.new.head.now }
    ensures present { turn.new.head.now.server.present ≡ slice_set turn.old.head.now.server.present word value }
{
    turn.write(word, value);
}

/// Writes the stamp. It takes no memory.
pub fn write_stamp(turn: &mut ServerTurn, stamp: u64)
    requires open { IsOpenServer turn.old }
    requires wide { length turn.old.head.now.server.present ≡ first_pixel }
    ensures same { SameServerTurn turn.old turn.new }
    ensures open { IsOpenServer turn.new }
    ensures head { OnlyTable turn.old.head.now turn.new.head.now }
    ensures words { Sets stamp_at 1 (λ k. stamp) turn.old.head.now.server.present turn.new.head.now.server.present }
{
    write_word(turn, STAMP, stamp);
}
