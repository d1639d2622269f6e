//! Laws of the definitions. Each function does nothing; its clause is the law.
ghost use Rattle.std.specs.Prelude.{List};
ghost use Rattle.qws_base.specs.Sides.{Sides};
ghost use Rattle.qws_base.specs.Arranged.{IsArranged};
ghost use Rattle.qws_base.specs.declared.windows.WindowView.{WindowView};
ghost use Rattle.window_stack.specs.Stacks.{IsStack, StackLaw, stack_of};

/// What a command does to windows, it does to their stack.
#[tactic(auto, using(crate::proofs::StackLaws::stack_law))]
pub fn stack_of_windows()
    ensures { StackLaw }
{}

/// Windows that a server comes to have a stack.
pub fn stacks_of_arranged_windows()
    ensures { (size : Sides) (windows : List WindowView) → IsArranged size windows → IsStack (stack_of windows) }
{}
