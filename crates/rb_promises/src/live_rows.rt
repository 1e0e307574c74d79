//! What rpcinfo shows of the live rows.
ghost use Rattle.rb_promises.specs.LiveRows.{DumpsAreAnswered, LiveRowsAreShown};

/// From every state, rpcinfo's call that asks for the rows is answered over a connection with the list of all live
/// rows; that of version 2 with the list of those on tcp and udp. In each state that a run of bytes reaches at good
/// limits, each row of these lists is shown, in their order, if the own rows of the listener fit the item of DUMP.
pub fn live_rows_are_shown()
    ensures answered { DumpsAreAnswered }
    ensures shown { LiveRowsAreShown }
{
    rb_rpc::written_replies_are_read();
}
