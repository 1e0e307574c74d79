//! What rpcinfo shows of the rows that the daemon lists.
ghost use Rattle.rb_promises.specs.RowLists.{DumpsAreShown, MappingsAreShown, EntriesAreShown};

/// If the daemon replies with a list of at most 4,096 rows, each of which fits the type of its item, rpcinfo
/// shows the line of each, in their order, or sums up all of them, and leaves what stands after the reply.
pub fn row_lists_are_shown()
    ensures dumps { DumpsAreShown }
    ensures mappings { MappingsAreShown }
    ensures entries { EntriesAreShown }
{
    rb_rpc::written_replies_are_read();
}
