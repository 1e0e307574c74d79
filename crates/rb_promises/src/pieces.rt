//! Where the bytes end that are taken of a piece.
ghost use Rattle.rb_promises.specs.Pieces.{PiecesEndAtRecords};

/// In each run, if nothing is owed or awaited on a live connection, a piece of bytes is taken to the end of the
/// first record that ends in it, and no further, or as a whole if none does.
pub fn pieces_end_at_records()
    ensures { PiecesEndAtRecords }
{}
