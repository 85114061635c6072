//! What follows from the definition of what words ask for.
ghost use Rattle.command_words.specs.Ask.{OneAsk};

/// Two asks that the same words ask for are equal.
pub fn one_ask()
    ensures { OneAsk }
{}
