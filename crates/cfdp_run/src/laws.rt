//! What is true of the words of a script. These functions do nothing: their contracts are the laws.

ghost use Rattle.cfdp_run.specs.Laws.{KeysAreRead, WordsAreRead};

/// A word that begins lines is read as it is spelled. So the text of a bad line names the line's own word.
pub fn words_are_read()
    ensures { WordsAreRead }
{}

/// A key of `mib` is read as it is spelled.
pub fn keys_are_read()
    ensures { KeysAreRead }
{}
