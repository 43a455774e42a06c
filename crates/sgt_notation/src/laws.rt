//! The law of transcripts. Its body does nothing: the law is its contract.
ghost use Rattle.sgt_notation.specs.Transcripts.{TranscriptsSpellTextbooks};

/// The transcript of entries has a line for each operation of their textbook's history, in its order. Each line is
/// the operation as it is spelled, if the items are named by the keys.
pub fn transcripts_spell_textbooks()
    ensures { TranscriptsSpellTextbooks }
{}
