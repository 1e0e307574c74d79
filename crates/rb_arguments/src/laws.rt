//! What holds of every request.
ghost use Rattle.rb_arguments.specs.Grammar.{RequestsAreOfTheGrammar};

/// Arguments are read exactly if the bytes begin with a spelling of them.
pub fn requests_are_of_the_grammar()
    ensures { RequestsAreOfTheGrammar }
{}
