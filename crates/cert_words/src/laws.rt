//! The laws of words, the contract of a function that does nothing.
ghost use Rattle.cert_words.specs.Claims.{WordsComeBack, ReadingIsExact};

/// The text of one word or more, with numbers of up to 2^64, is read back; and what is read of a text has
/// that text.
pub fn words_come_back()
    ensures back { WordsComeBack }
    ensures exact { ReadingIsExact }
{}
