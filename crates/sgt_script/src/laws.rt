//! The laws that the output of a whole script rests on. The body does nothing but name them.
ghost use Rattle.sgt_model.specs.StoredValues.{CommittedAreValues};
ghost use Rattle.sgt_model.specs.Laws.{HeadlineHolds};
ghost use Rattle.sgt_smallbank.specs.Replays.{ReplayIsBank};
ghost use Rattle.sgt_assembly.specs.Openings.{OpenedHoldValues};
ghost use Rattle.sgt_textbook.specs.Laws.{AreCommitOrdered, AreRecoverable, AreSerializable};
ghost use Rattle.sgt_notation.specs.Transcripts.{TranscriptsSpellTextbooks};

use sgt_assembly::opened_hold_values;
use sgt_model::{headline_holds, replays_hold_values};
use sgt_notation::transcripts_spell_textbooks;
use sgt_smallbank::replay_is_bank;
use sgt_textbook::{legal_are_commit_ordered, legal_are_recoverable, legal_are_serializable};

/// The headline holds for each legal history. The textbook's classes contain it, and its text spells the textbook's
/// operations. Each of SmallBank's procedures does the bank's arithmetic, if its part started with values.
pub(crate) fn outputs_obey_laws()
    ensures headline { HeadlineHolds }
    ensures ordered { AreCommitOrdered }
    ensures serializable { AreSerializable }
    ensures recoverable { AreRecoverable }
    ensures spell { TranscriptsSpellTextbooks }
    ensures opened { OpenedHoldValues }
    ensures committed { CommittedAreValues }
    ensures bank { ReplayIsBank }
{
    headline_holds();
    legal_are_commit_ordered();
    legal_are_serializable();
    legal_are_recoverable();
    transcripts_spell_textbooks();
    opened_hold_values();
    replays_hold_values();
    replay_is_bank();
}
