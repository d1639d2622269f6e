//! Laws of the definitions. Each function does nothing; its clause is the law.
ghost use Rattle.std.specs.Prelude.{◌≡◌, [], List};
ghost use Rattle.qws_base.specs.Sides.{Sides};
ghost use Rattle.qws_base.specs.declared.points.Rect.{Rect};
ghost use Rattle.qws_base.specs.declared.windows.WindowView.{WindowView};
ghost use Rattle.window_stack.specs.Stacks.{stack_of};
ghost use Rattle.region_alloc.specs.Allocations.{windows_asking, AreRequestsOf, IsAllocation, SharedOutLaw};
ghost use Rattle.region_alloc.specs.Changes.{IsSameOutside, OutsideLaw, OwnersLaw};

/// No pixel belongs to two slots, and together the slots have the pixels of the screen that windows request.
pub fn pixels_are_shared_out()
    ensures { SharedOutLaw }
{}

/// Windows have one allocation.
pub fn one_allocation()
    ensures { (size : Sides) (windows : List WindowView) (regions other : List (List Rect)) → IsAllocation size windows regions → IsAllocation size windows other → regions ≡ other }
{
    band_regions::one_list_for_a_set();
}

/// An allocation over the stack of windows and their requests is one of the windows themselves.
pub fn allocation_of_windows()
    ensures { (size : Sides) (windows : List WindowView) (requests regions : List (List Rect)) → AreRequestsOf size windows requests → IsAllocation size (windows_asking requests (stack_of windows)) regions → IsAllocation size windows regions }
{}

/// Where the window of one slot alone comes, goes, or gets another place in the stack or another request, each pixel keeps
/// its owner outside of what the window requested before and requests after.
pub fn others_keep_their_pixels()
    ensures owners { OwnersLaw }
    ensures regions { OutsideLaw }
{}

/// Where no pixel changes its owner, an allocation stays one.
pub fn allocation_stays()
    ensures { (size : Sides) (before : List WindowView) (after : List WindowView) (regions : List (List Rect)) → IsAllocation size before regions → IsSameOutside size [] regions after → IsAllocation size after regions }
{}
