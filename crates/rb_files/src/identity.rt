//! Whether a file is the one that was seen before.
ghost use Rattle.std.specs.Prelude.{◌≡◌};
ghost use Rattle.rb_files.specs.Found.{is_same_file};

use std::fs::Metadata;
use std::os::unix::fs::MetadataExt;

/// Which file it is of all that there are.
#[derive(Clone, Copy)]
pub(crate) struct Identity {
    device: u64,
    inode: u64,
}

/// Which file has this metadata.
pub(crate) fn identity_of(found: &Metadata) -> Identity {
    Identity {
        device: found.dev(),
        inode: found.ino(),
    }
}

// FILE-5
/// Whether these are one file.
pub(crate) fn is_same_file(a: Identity, b: Identity) -> bool
    ensures { result ≡ is_same_file a b }
{
    a.device == b.device && a.inode == b.inode
}
