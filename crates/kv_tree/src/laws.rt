ghost use denote.Param.Send.{IsSend};
ghost use Rattle.kv_tree.specs.contracts.tree.TreeIndex.{the_row as tree};

use crate::tree::TreeIndex;

fn is_send<T: Send>()
    ensures { IsSend T.row }
{}

/// An index may move to another thread.
pub fn tree_indexes_cross_threads()
    ensures { IsSend tree }
{
    is_send::<TreeIndex>();
}
