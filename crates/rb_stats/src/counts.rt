//! The numbers of a version that have no key.
ghost use Rattle.std.specs.Prelude.{◌≡◌, ◌+◌, ◌≤◌, ◌++◌, length, replicate};
ghost use Rattle.rb_stats.specs.Statistics.{one_more};
ghost use Rattle.rb_stats.specs.Table.{with_call, HasProcedures};

use crate::item::count_one;

/// How often each procedure was called, and how many SETs and UNSETs answered TRUE.
#[derive(Clone, Copy)]
pub(crate) struct Counts {
    pub info: [u32; 13],
    pub setinfo: u32,
    pub unsetinfo: u32,
}

/// Names each field, so that a further one does not compile until it stands here. It belongs in the table of
/// charges of crates/rb_core/README.md first.
fn layout(counts: &Counts) {
    let Counts {
        info,
        setinfo,
        unsetinfo,
    } = *counts;
    let _: ([u32; 13], u32, u32) = (info, setinfo, unsetinfo);
}

impl Counts {
    /// Nothing was called.
    pub(crate) fn new() -> Counts
        ensures { result ≡ record { info = replicate 13 0; setinfo = 0; unsetinfo = 0 } }
    {
        Counts {
            info: [0; 13],
            setinfo: 0,
            unsetinfo: 0,
        }
    }

    // STAT-1
    /// Counts a call of the procedure, if there is such a number.
    pub(crate) fn count_call(&mut self, proc: u32)
        ensures info { self.new ≡ record self.old { info = with_call proc self.old.info } }
        ensures procedures { HasProcedures self.new }
    {
        let place = proc as usize;
        if place < self.info.len() {
            count_one(&mut self.info[place]);
        }
    }

    pub(crate) fn count_set(&mut self)
        ensures { self.new ≡ record self.old { setinfo = one_more self.old.setinfo } }
    {
        count_one(&mut self.setinfo);
    }

    pub(crate) fn count_unset(&mut self)
        ensures { self.new ≡ record self.old { unsetinfo = one_more self.old.unsetinfo } }
    {
        count_one(&mut self.unsetinfo);
    }
}
