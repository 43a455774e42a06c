//! A law of the definitions. The body does nothing: the law is its contract.
ghost use Rattle.sgt_proc_json.specs.Laws.{ReadingIsSpelling};

/// A tree reads as a procedure exactly if it spells that procedure by the table of the formats. So it spells at most
/// one, and has a shape error exactly if it spells none.
pub fn reading_is_spelling()
    ensures { ReadingIsSpelling }
{}
