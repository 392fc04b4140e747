//! What holds of all words and values.

ghost use Rattle.numbers.specs.Back.{DecimalsReadBack, WholesReadBack, TwoDigitsReadBack, TextsAreWords};
ghost use Rattle.numbers.specs.Parts.{WholeWordsExact, DecimalWordsExact};

/// A word is read just where it is a number, and its value is that number's.
pub fn number_words_are_exact()
    ensures wholes { WholeWordsExact }
    ensures decimals { DecimalWordsExact }
{}

/// The text of a value is one word of its line, and is read as that value.
pub fn numbers_read_back()
    ensures decimals { DecimalsReadBack }
    ensures wholes { WholesReadBack }
    ensures pairs { TwoDigitsReadBack }
    ensures words { TextsAreWords }
{}
