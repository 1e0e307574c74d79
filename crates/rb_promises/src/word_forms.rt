//! What the words of rpcinfo ask for.
ghost use Rattle.rb_promises.specs.WordForms.{WordsAreOfTheForms};

/// The words of rpcinfo ask for something exactly if they are of a form of its manual page: the flag, the options
/// and the words of one line of the synopsis, each of them spelled as it says there. Other words can't be read.
pub fn words_are_of_the_forms()
    ensures { WordsAreOfTheForms }
{}
