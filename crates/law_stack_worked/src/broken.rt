//! Lists made by hand, each of which breaks one of the laws on stacks, and which of its events does.
ghost use Rattle.law_stack_worked.specs.Broken as lists;
ghost use Rattle.law_stack_worked.specs.Broken.{BreaksOrderLaw, BreaksRequestLaw};
ghost use Rattle.law_stack_worked.specs.StackOrders.{starts_from_the_bottom_plan, the_middle_device_is_removed_plan};
ghost use Rattle.law_stack_worked.specs.StackRequests.{status_comes_up_plan};

/// An arrival without a Send breaks the law on requests.
#[tactic(auto, using(crate::proofs::BrokenLists::arrives_unsent_breaks))]
pub fn arrives_unsent()
    ensures { BreaksRequestLaw status_comes_up_plan lists.arrives_unsent 3 }
{}

/// Two arrivals for one Send break it too.
#[tactic(auto, using(crate::proofs::BrokenLists::arrives_twice_breaks))]
pub fn arrives_twice()
    ensures { BreaksRequestLaw status_comes_up_plan lists.arrives_twice 5 }
{}

/// A connector that answers SUCCESS without an arrival breaks it too.
#[tactic(auto, using(crate::proofs::BrokenLists::done_before_arrival_breaks))]
pub fn done_before_arrival()
    ensures { BreaksRequestLaw status_comes_up_plan lists.done_before_arrival 4 }
{}

/// Another status than that of the request below breaks it.
#[tactic(auto, using(crate::proofs::BrokenLists::done_with_another_status_breaks))]
pub fn done_with_another_status()
    ensures { BreaksRequestLaw status_comes_up_plan lists.done_with_another_status 10 }
{}

/// A done before the completion below breaks it.
#[tactic(auto, using(crate::proofs::BrokenLists::done_before_completion_breaks))]
pub fn done_before_completion()
    ensures { BreaksRequestLaw status_comes_up_plan lists.done_before_completion 6 }
{}

/// A start from the top breaks the law on orders.
#[tactic(auto, using(crate::proofs::BrokenLists::starts_from_the_top_breaks))]
pub fn starts_from_the_top()
    ensures { BreaksOrderLaw starts_from_the_bottom_plan lists.starts_from_the_top 0 }
{}

/// A removal from the bottom breaks it too.
#[tactic(auto, using(crate::proofs::BrokenLists::removed_from_the_bottom_breaks))]
pub fn removed_from_the_bottom()
    ensures { BreaksOrderLaw the_middle_device_is_removed_plan lists.removed_from_the_bottom 13 }
{}
