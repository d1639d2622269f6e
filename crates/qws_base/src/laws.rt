//! Laws of the definitions. Each function does nothing; its clause is the law.
ghost use Rattle.std.specs.Prelude.{◌≡◌, ◌<◌, ◌^◌};
ghost use Rattle.qws_base.specs.Colours.{narrow_colour, wide_colour};
ghost use Rattle.qws_base.specs.Inks.{blended_channel, ink_after};
ghost use Rattle.qws_base.specs.Arranged.{ArrangedLaw};
ghost use Rattle.qws_base.specs.Equalities.{EqualLaw};
ghost use Rattle.qws_base.specs.Merges.{MergeLaw};
ghost use Rattle.qws_base.specs.RectPixels.{RectPixelsLaw};
ghost use Rattle.qws_base.specs.StepLaws.{AllAllocatedLaw, NoSlotLaw, OneOwnerLaw, OtherLaw, RefusedLaw, RevisionLaw, ToldLaw};
ghost use Rattle.qws_base.specs.declared.colours.Depth.TheVariants.{Full};
ghost use Rattle.qws_base.specs.declared.inks.Ink.TheVariants.{Blend};

/// The sixteen bits of the colour that sixteen bits stand for are those bits.
pub fn narrow_of_wide(v: u32)
    requires { v < 2 ^ 16 }
    ensures { narrow_colour (wide_colour v) ≡ v }
{
    let _ = v;
}

/// A transparent colour leaves each channel as it was.
pub fn transparent_blend(c: u8, s: u8)
    ensures { blended_channel c 0 s ≡ s }
{
    let _ = (c, s);
}

/// An opaque colour replaces each channel.
pub fn opaque_blend(c: u8, s: u8)
    ensures { blended_channel c 255 s ≡ c }
{
    let _ = (c, s);
}

/// A refused command leaves the state of the server as it is.
#[tactic(auto, using(crate::proofs::StepLaws::refused_law))]
pub fn refused_stays()
    ensures { RefusedLaw }
{}

/// After an accepted command the revision of each slot is one more exactly where its owner, its origin or its pixels
/// are others than before; no step lowers a revision.
#[tactic(auto, using(crate::proofs::StepLaws::revision_law))]
pub fn revisions_rise()
    ensures { RevisionLaw }
{}

/// A command on the cursor, on channels or on a mailbox leaves each window, each allocated pixel and each revision.
#[tactic(auto, using(crate::proofs::StepLaws::other_law))]
pub fn other_commands_leave_windows()
    ensures { OtherLaw }
{}

/// No point of the screen is allocated to two slots.
#[tactic(auto, using(crate::proofs::StepLaws::one_owner_law))]
pub fn one_owner()
    ensures { OneOwnerLaw }
{}

/// The pixels that are allocated to the slots are together those that the windows request on the screen.
#[tactic(auto, using(crate::proofs::StepLaws::all_allocated_law))]
pub fn all_allocated()
    ensures { AllAllocatedLaw }
{}

/// Each window keeps a slot of its own, layer 1 stands before layer 0, no origin or rectangle leaves its range, and no slot
/// needs more than 256 rectangles: so it is in the opening state, and after each step.
#[tactic(auto, using(crate::proofs::ArrangedLemmas::arranged_law))]
pub fn windows_stay_arranged()
    ensures { ArrangedLaw }
{}

/// After an accepted command RegionModified stands at the end of the mailbox of each owner of a window whose pixels
/// changed, once and in the order of the slots, unless the mailbox holds one for the slot.
#[tactic(auto, using(crate::proofs::ToldLemmas::told_law))]
pub fn owners_are_told()
    ensures { ToldLaw }
{}

/// No slot is free exactly where 32 windows are live.
pub fn no_slot_is_free()
    ensures { NoSlotLaw }
{}

/// The merge of a journal with books looks at numbers, stamps and order alone: changed entries are merged as the entries.
#[tactic(auto, using(crate::proofs::MergeLemmas::merge_law))]
pub fn merges_by_order<X, Y>()
    ensures { MergeLaw X Y }
{}

/// The pixels of disjoint rectangles on the screen, rectangle by rectangle and row by row, are the pixels that one of them has,
/// each once.
pub fn rects_have_pixels()
    ensures { RectPixelsLaw }
{}

/// `==` of commands, replies, events and entries passes exactly where both are the same.
#[tactic(auto, using(crate::proofs::EqualLemmas::equal_law))]
pub fn equal_values_are_same()
    ensures { EqualLaw }
{}
