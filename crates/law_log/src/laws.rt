//! Laws of the log that lies in the heap.
ghost use Rattle.law_log.specs.Laws.{BaseTakesPlace, GroupComesBehind, ToldKeepsRules};

/// What a log tells obeys the rules of a log.
pub fn told_keeps_rules()
    ensures { ToldKeepsRules }
{}

/// A base in the place of the log's first chains tells the same, but for the reclaim mark.
pub fn base_takes_place()
    ensures { BaseTakesPlace }
{}

/// A group comes at the end of the log: its commits are added, and nothing else changes.
pub fn group_comes_behind()
    ensures { GroupComesBehind }
{}
