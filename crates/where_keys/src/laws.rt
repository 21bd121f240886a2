//! What follows where a condition names a key.
ghost use Rattle.where_keys.specs.Laws.{NamedKeysAreEnough, NamedUniqueKeysAreEnough};

/// A law: where a condition names the primary key, or each column of a unique key, only the row that has it need be looked at.
pub fn named_keys_are_enough()
    ensures primary { NamedKeysAreEnough }
    ensures unique { NamedUniqueKeysAreEnough }
{}
