//! What each step tells, and how views are cut and joined.
use crate::known::View;
use atomic_table::{Join, Play, Split};
use std::marker::{Brand, PhantomData};

pub(crate) struct Enters;

impl Play<(), View> for Enters {
    ghost use Rattle.fb_words.specs.Steps.{entered};

    ghost then = { entered };
}

pub(crate) struct Retreats;

impl Play<(), View> for Retreats {
    ghost use Rattle.fb_words.specs.Steps.{retreated};

    ghost then = { retreated };
}

pub(crate) struct Looks;

impl Play<(), View> for Looks {
    ghost use Rattle.fb_words.specs.Steps.{looked_at};

    ghost then = { looked_at };
}

pub(crate) struct Picks;

impl Play<(), View> for Picks {
    ghost use Rattle.fb_words.specs.Steps.{picked};

    ghost then = { picked };
}

pub(crate) struct Puts;

impl Play<(), View> for Puts {
    ghost use Rattle.fb_words.specs.Steps.{put};

    ghost then = { put };
}

/// The turn that a leave closes.
pub(crate) trait Turn {
    ghost use Rattle.fb_words.specs.declared.known.PaintCall.{PaintCall};

    ghost turn: { PaintCall };
}

impl Turn for Brand {
    ghost use Rattle.fb_words.specs.Steps.{no_paint};

    ghost turn = { no_paint };
}

pub(crate) struct Leaves<T> {
    of: PhantomData<T>,
}

impl<T: Turn> Play<(), View> for Leaves<T> {
    ghost use Rattle.fb_words.specs.Steps.{left};

    ghost then = { left T.turn };
}

pub(crate) struct Reads;

impl Play<(), View> for Reads {
    ghost use Rattle.fb_words.specs.Steps.{was_read};

    ghost then = { was_read };
}

pub(crate) struct Writes;

impl Play<(), View> for Writes {
    ghost use Rattle.fb_words.specs.Steps.{wrote};

    ghost then = { wrote };
}

pub(crate) struct Announces;

impl Play<(), View> for Announces {
    ghost use Rattle.fb_words.specs.Steps.{announced};

    ghost then = { announced };
}

pub(crate) struct Settles;

impl Play<(), View> for Settles {
    ghost use Rattle.fb_words.specs.Steps.{settled};

    ghost then = { settled };
}

pub(crate) struct Withdraws;

impl Play<(), View> for Withdraws {
    ghost use Rattle.fb_words.specs.Steps.{withdrew};

    ghost then = { withdrew };
}

pub(crate) struct Tells;

impl Play<(), View> for Tells {
    ghost use Rattle.fb_words.specs.Steps.{told};

    ghost then = { told };
}

/// The entry that a give closes its turn with.
pub(crate) trait Entry {
    ghost use Rattle.qws_base.specs.declared.journals.JournalEntry.{JournalEntry};

    ghost entry: { JournalEntry };
}

impl Entry for Brand {
    ghost use Rattle.fb_words.specs.Steps.{no_entry};

    ghost entry = { no_entry };
}

pub(crate) struct Gives<E> {
    of: PhantomData<E>,
}

impl<E: Entry> Play<(), View> for Gives<E> {
    ghost use Rattle.fb_words.specs.Steps.{given};

    ghost then = { given E.entry };
}

/// A number: of a client, or a step limit.
pub(crate) trait Number {
    ghost use Rattle.std.specs.Prelude.{ℕ};

    ghost number: { ℕ };
}

impl Number for Brand {
    ghost number = { 0 };
}

pub(crate) struct Rises<N> {
    of: PhantomData<N>,
}

impl<N: Number> Split<View> for Rises<N> {
    ghost use Rattle.fb_words.specs.Views.{without, client_of, alone};

    ghost left = { λ v. record v { clients = without N.number v.clients } };

    ghost right = { λ v. alone (client_of N.number v.clients) };
}

pub(crate) struct Admits<N> {
    of: PhantomData<N>,
}

impl<N: Number> Split<View> for Admits<N> {
    ghost use Rattle.std.specs.Prelude.{length};
    ghost use Rattle.fb_words.specs.Views.{head_view, the_server, alone};
    ghost use Rattle.fb_words.specs.Steps.{with_limit, fresh};

    ghost left = { λ v. head_view (with_limit (the_server v) N.number) v.clients };

    ghost right = { λ v. alone (fresh (the_server v).setting (length (the_server v).limits) N.number) };
}

pub(crate) struct Sits;

impl Join<View> for Sits {
    ghost use Rattle.fb_words.specs.Views.{both_views, nothing};

    ghost both = { both_views };

    ghost spent = { nothing };
}
