//! What is true of all words that fresh processors find, shown by a call that does nothing.
ghost use Rattle.ppm_resumed.specs.Resumed.{RenewedWordsComeBack};

/// Where no holder has the last tag, the words that fresh processors find are saved words that come
/// back: so what tickets say of all turns before goes on to hold (`resumes` of `ppm_tickets`).
pub fn renewed_words_come_back()
    ensures law { RenewedWordsComeBack }
{}
