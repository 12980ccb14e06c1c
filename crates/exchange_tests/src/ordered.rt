//! A link that keeps its order, by itself: what is put is taken, whatever its length, and then the word that ends it.
use ordered_link::{LINK_CAPACITY, Putter, Taker, make_link};
use std::alloc::Global;
use std::sync::Wait;

// A text of so many bytes.
fn text_of(alloc: Global, bytes: usize) -> Option<String> {
    let mut text = String::with_capacity(alloc, bytes).ok()?;
    for _ in 0..bytes {
        text.push('a').ok()?;
    }
    Some(text)
}

// Puts texts of these lengths, and the word that ends the link; whether each was put. The end is dropped.
fn put_all<R: Wait>(rt: &R, alloc: Global, putter: Putter, lengths: &[usize]) -> Option<bool> {
    let mut putter = putter;
    let mut all = true;
    for bytes in lengths {
        all = putter.put(rt, text_of(alloc, *bytes)?) && all;
    }
    putter.finish(rt);
    Some(all)
}

// How many texts of these lengths are taken, one after another.
fn take_all<R: Wait>(rt: &R, taker: &mut Taker, lengths: &[usize]) -> usize {
    let mut count = 0usize;
    for bytes in lengths {
        match taker.take(rt) {
            Some(text) if text.len() == *bytes => count = count.saturating_add(1),
            _ => return count,
        }
    }
    count
}

// Whether each text was put, how many were taken, and whether the link then had ended by its word.
fn carried<R: Wait>(rt: &R, alloc: Global, lengths: &[usize]) -> Option<(bool, usize, bool)> {
    if lengths.len() >= LINK_CAPACITY {
        return None;
    }
    let (putter, mut taker) = make_link(alloc).ok()?;
    let put = put_all(rt, alloc, putter, lengths)?;
    let taken = take_all(rt, &mut taker, lengths);
    let ended = taker.take(rt).is_none() && taker.is_finished();
    Some((put, taken, ended))
}

// Among them are an empty one, and some beside powers of two.
static LENGTHS: [usize; 6] = [1, 0, 65_535, 65_537, 1_048_577, 7];

#[test]
fn a_link_carries_texts_of_any_length(rt: HostRuntime) {
    let found = carried(&rt, rt.alloc(), &LENGTHS);
    assert!(rt; found == Some((true, 6, true)), "{found:?}");
}
