ghost use Rattle.kv_model.specs.Layout.{LayoutsRise, ClassesAreLeast};
ghost use Rattle.kv_model.specs.Groups.{GroupsHoldRequests, OneGrouping};
ghost use Rattle.kv_model.specs.Order.{StampsRise};
ghost use Rattle.kv_model.specs.Items.{ItemsAreOne, OneAnswer};
ghost use Rattle.kv_model.specs.BatchLaws.{StampsFollowRequests, NetHasOneWritePerKey};
ghost use Rattle.kv_model.specs.BatchLaws.{NetReadsAsAll, AcknowledgedReadAsAll, AnswersAgree};
ghost use Rattle.kv_model.specs.BatchLaws.{StoreFollowsHistory, OldOrNewIsPrefix, ToldAnswersAgree};
ghost use Rattle.kv_model.specs.BatchLaws.{FailedAnswersAgree, FailedAreUnsure};
ghost use Rattle.kv_model.specs.BatchLaws.{OldOrNewOfAccepted};
ghost use Rattle.kv_model.specs.RunLaws.{RefusalsAgree, RefusalsAreSilent, KeptAreGiven};
ghost use Rattle.kv_model.specs.RunLaws.{PrefixesStay};

/// The classes of the layouts rise.
pub fn layouts_rise()
    ensures { LayoutsRise }
{}

/// An item's class is the least of the layout that holds it.
pub fn classes_are_least()
    ensures { ClassesAreLeast }
{}

/// Groups have 1 to 64 requests, and hold each request that has a reply once, in order.
pub fn groups_hold_requests()
    ensures { GroupsHoldRequests }
{}

/// Requests and replies determine the groups of pairs.
pub fn one_grouping()
    ensures { OneGrouping }
{}

/// Through all groups of a session the stamps of each key's requests rise.
pub fn stamps_rise()
    ensures { StampsRise }
{}

/// A history has one list of items in a range at a stamp.
pub fn items_are_one()
    ensures { ItemsAreOne }
{}

/// The answers to a batch and its net changes are determined by the writes before it, its first
/// stamp, the limit and the requests.
pub fn one_answer()
    ensures { OneAnswer }
{}

/// Each request of a batch has one reply, and the replies' stamps are those of the requests.
pub fn stamps_follow_requests()
    ensures { StampsFollowRequests }
{}

/// The net changes have one write for each key, with rising stamps of the batch.
pub fn net_has_one_write_per_key()
    ensures { NetHasOneWritePerKey }
{}

/// Behind the net changes a key has what it has behind all accepted writes.
pub fn net_reads_as_all()
    ensures { NetReadsAsAll }
{}

/// Behind the acknowledged writes a key has what it has behind all accepted ones.
pub fn acknowledged_writes_read_as_all()
    ensures { AcknowledgedReadAsAll }
{}

/// A run that agrees with one plain map agrees with the answers to a batch behind it.
pub fn answers_agree_with_one_map()
    ensures { AnswersAgree }
{}

/// So it does with replies of which the same is told as of the answers.
pub fn told_answers_agree_with_one_map()
    ensures { ToldAnswersAgree }
{}

/// A store that has the net changes has what the history with the acknowledged writes has.
pub fn store_follows_history()
    ensures { StoreFollowsHistory }
{}

/// A key with its old or its new value has what it has behind a prefix of the net changes.
pub fn old_or_new_is_a_prefix()
    ensures { OldOrNewIsPrefix }
{}

/// A run that agrees with one plain map agrees with the replies to a batch of which a write failed.
pub fn failed_answers_agree_with_one_map()
    ensures { FailedAnswersAgree }
{}

/// Where a write failed, all accepted writes of the batch are unsure and none is acknowledged; else
/// none is unsure.
pub fn failed_writes_are_unsure()
    ensures { FailedAreUnsure }
{}

/// A key with its old or its new value has what it has behind a prefix of the accepted writes, and
/// of the acknowledged ones.
pub fn old_or_new_reads_as_all()
    ensures { OldOrNewOfAccepted }
{}

/// A run that agrees with one plain map does so with refusals among its last replies.
pub fn refusals_agree_with_one_map()
    ensures { RefusalsAgree }
{}

/// Refusals carry no stamp, and leave no write acknowledged or unsure.
pub fn refusals_are_silent()
    ensures { RefusalsAreSilent }
{}

/// Behind the writes of all items that an image keeps each key has what the image gives for it.
pub fn kept_items_are_given()
    ensures { KeptAreGiven }
{}

/// An image that recovers a prefix of writes does so with more writes above all their stamps, and
/// with fewer of them acknowledged.
pub fn prefixes_stay()
    ensures { PrefixesStay }
{}
