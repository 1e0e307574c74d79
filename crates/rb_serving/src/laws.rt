//! What holds of the arguments that are kept of a record.
ghost use Rattle.rb_serving.specs.Messages.{KeptSaysTheRecord};

/// The verdict on a record and the first 8,816 bytes after the head of its call decide what it says.
pub fn kept_bytes_say_the_record()
    ensures { KeptSaysTheRecord }
{}
