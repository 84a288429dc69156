//! What each step on the words tells.

ghost use Rattle.crossbeam_utils.specs.Seq.{doing, idle, looked, peeked, checked, locked, wrote};
ghost use Rattle.hk_seq.specs.Steps.{matched, noted, published_over};

use atomic_table::{Join, Play, Split};
use crossbeam_utils::atomic::seq_cell::{Doing, Words};
use crossbeam_utils::rule::Outcome;
use std::marker::PhantomData;

// The version is read.
pub(crate) struct Look;

impl<T, V> Play<T, Doing<T, V>> for Look {
    ghost then = { looked };
}

// A word is read.
pub(crate) struct Peek<const N: usize>;

impl<T: Words<N>, V, const N: usize> Play<T, Doing<T, V>> for Peek<N> {
    ghost then = { peeked T.words };
}

// The version is read again.
pub(crate) struct Check<M, const N: usize> {
    outcome: PhantomData<M>,
}

impl<T: Words<N>, V, M: Outcome<T, V>, const N: usize> Play<T, Doing<T, V>> for Check<M, N> {
    ghost then = { checked T.words N M.then };
}

// The version is read, and that is a step of the caller's rule.
pub(crate) struct Note<M> {
    outcome: PhantomData<M>,
}

impl<T, V, M: Outcome<T, V>> Play<T, Doing<T, V>> for Note<M> {
    ghost then = { noted M.then };
}

// The version becomes odd.
pub(crate) struct Lock<const N: usize>;

impl<T: Words<N>, V, const N: usize> Play<T, Doing<T, V>> for Lock<N> {
    ghost then = { locked T.words N };
}

// The next word is read by the writer. If it is what is to be written, it counts as written.
pub(crate) struct Match<const N: usize>;

impl<T: Words<N>, V, const N: usize> Play<T, Doing<T, V>> for Match<N> {
    ghost then = { matched T.words };
}

// The next word is written.
pub(crate) struct Put;

impl<T, V> Play<T, Doing<T, V>> for Put {
    ghost then = { wrote };
}

// The version becomes even, and the words that were not written stay.
pub(crate) struct Publish<M, const N: usize> {
    outcome: PhantomData<M>,
}

impl<V, M: Outcome<[u64; N], V>, const N: usize> Play<[u64; N], Doing<[u64; N], V>>
    for Publish<M, N> {
    ghost then = { published_over M.then };
}

// A view is cut in two.
pub(crate) struct Cut<M> {
    split: PhantomData<M>,
}

impl<T, V, M: Split<V>> Split<Doing<T, V>> for Cut<M> {
    ghost left = { λ d. doing d.stage (M.left d.client) };

    ghost right = { λ d. idle (M.right d.client) };
}

// Two views become one.
pub(crate) struct Glue<M> {
    join: PhantomData<M>,
}

impl<T, V, M: Join<V>> Join<Doing<T, V>> for Glue<M> {
    ghost both = { λ d e. doing d.stage (M.both d.client e.client) };

    ghost spent = { idle M.spent };
}
