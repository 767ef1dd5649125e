//! Worked layouts of a few tables, and what the strategies and a book say of them.
#![tactic(auto)]

ghost use Rattle.layouts.specs.Layouts.{Layouts};
ghost use Rattle.layouts.specs.Promises.{Promised};

/// Its contract holds the layouts: each is an equation over the definitions that the strategies and the calls on a book are proved to follow.
/// And it holds what the promises over lists of calls say of some of them.
pub fn worked_layouts()
    ensures layouts { Layouts }
    ensures promised { Promised }
{}
