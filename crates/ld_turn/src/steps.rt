//! The kinds of atomic step, each with what it tells the seat that takes it.
ghost use Rattle.ld_turn.specs.Steps.{asked, counted, drawn, looked, met, numbered, passed, rang, told};
ghost use Rattle.ld_turn.specs.Views.{cut_left, cut_right, merged, noted, spent};

use crate::rule::View;
use crate::told::Told;
use atomic_table::{Join, Play, Split};
use std::marker::PhantomData;

/// One more ticket: the seat has it.
pub(crate) struct Draw;

impl<V, E> Play<Option<V>, View<E>> for Draw {
    ghost then = { drawn };
}

/// A look at the ticket served: where it is the seat's, the seat has the turn and the value's slot.
pub(crate) struct Look<V> {
    of: PhantomData<V>,
}

impl<V: Told> Play<Option<V>, View<V::Entry>> for Look<V> {
    ghost then = { looked V.list V.seat_of };
}

/// The entries of the turn become part of the history.
pub(crate) struct Tell<V> {
    of: PhantomData<V>,
}

impl<V: Told> Play<Option<V>, View<V::Entry>> for Tell<V> {
    ghost then = { told V.list };
}

/// The next ticket is served: the slot goes home.
pub(crate) struct Pass;

impl<V, E> Play<Option<V>, View<E>> for Pass {
    ghost then = { passed };
}

/// A step on a bell, which tells nothing.
pub(crate) struct Ring;

impl<V, E> Play<Option<V>, View<E>> for Ring {
    ghost then = { rang };
}

/// A look at the number of seats made: where one is free, the seat may add to it.
pub(crate) struct Ask;

impl<V, E> Play<Option<V>, View<E>> for Ask {
    ghost then = { asked };
}

/// One more seat made: the seat has its number to give.
pub(crate) struct Number;

impl<V, E> Play<Option<V>, View<E>> for Number {
    ghost then = { numbered };
}

/// A look at the number of seats made.
pub(crate) struct Count;

impl<V, E> Play<Option<V>, View<E>> for Count {
    ghost then = { counted };
}

/// A look at the length of the history: the seat sees all of it.
pub(crate) struct Meet;

impl<V, E> Play<Option<V>, View<E>> for Meet {
    ghost then = { met };
}

/// The new seat has the number that the old one had to give.
pub(crate) struct Cut;

impl<E> Split<View<E>> for Cut {
    ghost left = { cut_left };

    ghost right = { cut_right };
}

/// A note of what a seat has seen.
pub(crate) struct Copy;

impl<E> Split<View<E>> for Copy {
    ghost left = { λ d. d };

    ghost right = { noted };
}

/// One seat takes in what another knows.
pub(crate) struct Glue;

impl<E> Join<View<E>> for Glue {
    ghost both = { merged };

    ghost spent = { spent };
}
