//! The least of moments, each of which may be missing.
ghost use Rattle.std.specs.Prelude.{◌≡◌, length};
ghost use Rattle.std.specs.Map.{values_of};
ghost use Rattle.rb_xdr.specs.Meter.{PaysAtMost};
ghost use Rattle.rb_forward.specs.Deadlines.{sooner_of, soonest_cost, IsSoonest};

use rb_xdr::{Meter, Pool};

/// The lesser of two moments, each of which may be missing.
pub fn sooner(a: Option<u64>, b: Option<u64>) -> Option<u64>
    ensures { result ≡ sooner_of a b }
{
    match (a, b) {
        (Some(a), Some(b)) => Some(a.min(b)),
        (Some(a), None) => Some(a),
        (None, b) => b,
    }
}

/// The least moment of the values of a table, of each of which `moment` tells one or none.
pub fn soonest_in<T, F: Fn(&T) -> Option<u64>>(
    table: &Pool<T>,
    moment: F,
    meter: &mut Meter,
) -> Option<u64>
    requires tie { meter.old.tie ≡ table.now.tie }
    requires callable { F.IsAlwaysCallable moment }
    ensures soonest { IsSoonest F.Fn moment (values_of table.now.entries) result }
    ensures cost { PaysAtMost meter.old meter.new (soonest_cost (length table.now.entries)) }
{
    let mut soonest = None;
    let mut place = None;
    'values: while let Some((key, value)) = table.entry_after(place, meter) {
        let told = moment(value);
        soonest = sooner(soonest, told);
        place = Some(key);
    }
    soonest
}
