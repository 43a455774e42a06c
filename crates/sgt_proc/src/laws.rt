//! A law of the definitions. The body does nothing: the law is its contract.
ghost use Rattle.sgt_proc.specs.Sound.{FlawlessIsSound};

/// A procedure without a flaw is sound on every run:
///
/// - it meets no unset register, no missing argument, no ninth answer and no invalid key;
/// - it writes and answers only values;
/// - it aborts only with a code of its own or 1000.
pub fn flawless_is_sound()
    ensures { FlawlessIsSound }
{}
