ghost use Rattle.kv_slot.specs.Laws.{BeginWithStamp, HaveTheirSize, ItemsReadAgain};
ghost use Rattle.kv_slot.specs.Laws.{LargeItemsReadAgain, LargeTombstonesReadAgain};
ghost use Rattle.kv_slot.specs.Laws.{OtherStampsTear, OverwritesStayInPlace, TombstonesReadAgain};

/// What is put in a slot is what is read from it: items of the classes 1 to 7, and tombstones. The
/// law is the contract.
pub fn slots_read_again()
    ensures items { ItemsReadAgain }
    ensures tombstones { TombstonesReadAgain }
    ensures large_tombstones { LargeTombstonesReadAgain }
{}

/// What is put in a slot of the classes 8 to 11 is what is read from it, and with another stamp at
/// the head of one of its later pages it is torn. The law is the contract.
pub fn large_slots_read_again()
    ensures items { LargeItemsReadAgain }
    ensures torn { OtherStampsTear }
{}

/// What is written into a page changes nothing else of it. Each slot and each page that is written
/// has its size, and begins with its stamp. The law is the contract.
pub fn slots_stay_in_place()
    ensures place { OverwritesStayInPlace }
    ensures size { HaveTheirSize }
    ensures stamp { BeginWithStamp }
{}
