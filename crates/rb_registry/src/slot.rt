//! A row with the changes that added and removed it.
ghost use Rattle.std.specs.Prelude.{◌≡◌, None};
ghost use Rattle.rb_registry.specs.Slots.{is_live_at, is_dropped};
ghost use Rattle.rb_registry.specs.Versions.{is_version_now};

use crate::listed::ListedRow;
use crate::row::Row;

/// A row, the number of the change that added it (0 for an own row), and of the one that removed it.
///
/// The numbers stand before the row and its item of a list, so that what a walk looks at is together.
#[derive(Drop)]
pub(crate) struct Slot {
    pub(crate) added: u64,
    pub(crate) removed: Option<u64>,
    pub(crate) row: ListedRow,
}

/// Names each field, so that a further one does not compile until it stands here. It belongs in the table of
/// charges of crates/rb_core/README.md first.
fn layout(slot: &Slot) {
    let Slot {
        added,
        removed,
        row,
    } = slot;
    let _: (u64, Option<u64>) = (*added, *removed);
    let _: &ListedRow = row;
}

impl Slot {
    /// What is written to a place before any row has it.
    pub(crate) fn blank() -> Slot
        ensures { result.removed ≡ None }
    {
        Slot {
            added: 0,
            removed: None,
            row: ListedRow::new(Row::default()),
        }
    }

    /// Whether the row was live after this many changes.
    #[tactic(auto, unfolding(crate::specs::Slots::is_live_at))]
    pub(crate) fn is_live_at(&self, stamp: u64) -> bool
        ensures { result ≡ is_live_at stamp self.now }
    {
        self.added <= stamp
            && match self.removed {
                None => true,
                Some(removed) => stamp < removed,
            }
    }

    /// Whether the row is live now and of this version.
    pub(crate) fn is_version_now(&self, prog: u32, vers: u32) -> bool
        ensures { result ≡ is_version_now prog vers self.now }
    {
        let row = self.row.as_row();
        self.removed.is_none() && row.prog == prog && row.vers == vers
    }

    /// Whether `trim` drops the row: it was removed by the change of number `oldest` or an earlier one, or by any
    /// if `oldest` is `None`.
    #[tactic(auto, unfolding(crate::specs::Slots::is_dropped))]
    pub(crate) fn is_dropped(&self, oldest: Option<u64>) -> bool
        ensures { result ≡ is_dropped oldest self.now }
    {
        match (self.removed, oldest) {
            (None, _) => false,
            (Some(_), None) => true,
            (Some(removed), Some(oldest)) => removed <= oldest,
        }
    }
}
