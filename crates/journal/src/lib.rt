// Reversal, rotation and swap, journalled; and how they are taken back.

#![tactic(auto)]

ghost use Rattle.std.specs.Prelude.{◌≡◌, true, ◌≤◌, length};
ghost use Rattle.rules.specs.Journal.{good_journal, track_of};
ghost use Rattle.rules.specs.SharedWords.{Tied};
ghost use Rattle.journal.specs.Journalled.{Back};

use crate::entries::take_back;

pub mod entries;
pub mod kinds;
pub mod track;

// Takes back all entries past the first `mark`, the newest first. Returns how many are held then.
pub fn rollback(
    round: &mut [u32],
    places: &mut [u32],
    scratch: &mut [u32],
    journal: &[u32],
    held: usize,
    mark: usize,
) -> usize
    requires tied { Tied round.old places.old }
    requires scratch_len { length scratch.old ≡ length round.old }
    requires held_value { good_journal (length round.old) journal.now held ≡ true }
    requires mark_le_held { mark ≤ held }
    ensures { Back (track_of round.old journal.now held) mark round.new places.new journal.now result }
{
    for i in (mark..held).rev() {
        take_back(round, places, scratch, journal, i);
    }
    mark
}
