ghost use Rattle.kv_slab.specs.Batches.{ChangesLeaveFree, ChangesTakeSlots};

/// The free slots and the ends that `apply` leaves are those of the plain map's batch. The law is
/// the contract.
pub fn changes_are_a_batch()
    ensures taken { ChangesTakeSlots }
    ensures free { ChangesLeaveFree }
{}
