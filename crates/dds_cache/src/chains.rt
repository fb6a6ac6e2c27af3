//! Where the kept samples of each instance are.
//!
//! DDS 1.4, 2.2.2.5 (read_instance, take_instance, read_next_instance, take_next_instance).

ghost use Rattle.std.specs.Prelude.{false, true, ◌≡◌, ◌<◌, ◌≤◌, ◌∷◌, ◌++◌, [], List, length, MatchOption, None, Some, slice_get};
ghost use Rattle.dds_cache.specs.declared.kept.Kept.{Kept};
ghost use Rattle.indexmap.specs.IndexMap.{Updates};
ghost use Rattle.dds_base.specs.Happening.{same_key};
ghost use Rattle.dds_cache.specs.Chains.{AreChainsOf, AreOthers, HasSpan, IsFirst, IsFirstUnread, IsFoundAt, Leads, is_latest, span_of, with_more};

use crate::kept::Kept;
use dds_base::Key;
use indexmap::IndexMap;
use std::alloc::{AllocError, Global};
use std::mem;

/// Between which places the kept samples of one instance are.
#[derive(Clone, Copy)]
struct Span {
    /// None of them is before it, but for those that are gone.
    first: usize,
    /// None of them is before it, but for those that are gone, or were read.
    unread: usize,
    /// The last of them.
    last: usize,
}

/// Between which places the kept samples of the latest instance are.
#[derive(Clone, Copy)]
struct Latest {
    key: Key,
    span: Span,
    /// At which index the spans of all have it, if they do.
    at: usize,
}

/// Where the kept samples of each instance are: each has a link to the next one of its instance.
#[derive(Drop)]
pub struct Chains {
    /// By place, where the next sample of the instance is, or a place that is not behind it; `u32::MAX` where there is none.
    links: Vec<u32>,
    /// By key, between which places the samples of an instance are. What it says of the latest one is older, or nothing.
    spans: IndexMap<Key, Span>,
    /// The instance that a sample was added of last, if one was. Its key is compared before a key is hashed; where no other
    /// instance has a sample, none ever is.
    latest: Option<Latest>,
    /// Whether they are of all kept samples. They are not once memory was refused, until they are made anew: samples are
    /// then found by a pass over all.
    is_whole: bool,
}

impl Span {
    /// Of one sample, at a place.
    fn of_one(place: usize) -> Span
        ensures { result ≡ with_more None place }
    {
        Span {
            first: place,
            unread: place,
            last: place,
        }
    }

    /// Takes up that one more is at a place, behind all. Returns where the last one before it is.
    fn extend(&mut self, place: usize) -> usize
        ensures last { result ≡ self.old.last }
        ensures more { self.new ≡ with_more (Some self.old) place }
    {
        self.first = self.first.min(place);
        self.unread = self.unread.min(place);
        mem::replace(&mut self.last, place)
    }
}

/// A link to a place, or to one before it where the place has no link.
fn link_to(place: usize) -> u32
    ensures { result ≤ place }
{
    u32::try_from(place).unwrap_or(u32::MAX)
}

impl Chains {
    /// Of no samples.
    pub fn new(alloc: Global) -> Chains
        ensures { AreChainsOf [] result }
    {
        Chains {
            links: Vec::new(alloc),
            spans: IndexMap::new(alloc),
            latest: None,
            is_whole: true,
        }
    }

    /// Makes room for so many more samples, and for those of so many instances in all. Of instances without a sample nothing is
    /// kept, so there are never more of them than samples.
    pub fn reserve(&mut self, samples: usize, instances: usize) -> Result<(), AllocError>
        ensures { (ks : List Kept) → AreChainsOf ks self.old → AreChainsOf ks self.new }
    {
        self.links.reserve(samples)?;
        let spans = instances.min(self.links.len().saturating_add(samples));
        self.spans.reserve(spans.saturating_sub(self.spans.len()))
    }

    /// Forgets all. It costs what there is to forget, however much there is room for.
    #[inline(always)]
    pub fn clear(&mut self)
        ensures { AreChainsOf [] self.new }
    {
        self.links.clear();
        if !self.spans.is_empty() {
            self.spans.truncate(0);
        }
        self.latest = None;
        self.is_whole = true;
    }

    /// Between which places the samples of an instance are, if it has any, and at which index the spans of all have that,
    /// unless it is the latest.
    #[inline(always)]
    fn find(&self, key: Key) -> Option<(usize, Span)>
        ensures { MatchOption result (span_of self.now key ≡ None) (IsFoundAt self.now key) }
    {
        if let Some(latest) = self.latest {
            if latest.key == key {
                return Some((latest.at, latest.span));
            }
        }
        if self.spans.is_empty() {
            return None;
        }
        let (at, _, span) = self.spans.get_full(&key)?;
        Some((at, *span))
    }

    /// Whether a sample was added last of this instance.
    fn is_latest(&self, key: Key) -> bool
        ensures { result ≡ is_latest self.now.latest key }
    {
        match self.latest {
            Some(latest) => latest.key == key,
            None => false,
        }
    }

    /// Has this span at an index of the spans of all, in place of the one that is there.
    fn replace_at(&mut self, at: usize, span: Span)
        ensures spans { (i : Key) (before : Span) → slice_get self.old.spans.entries at ≡ Some (i, before)
            → Updates same_key self.old.spans self.new.spans i (Some span) }
        ensures links { self.new.links ≡ self.old.links }
        ensures latest { self.new.latest ≡ self.old.latest }
        ensures whole { self.new.is_whole ≡ self.old.is_whole }
    {
        if let Some(before) = self.spans.get_index_mut(at) {
            *before = span;
        }
    }

    /// Has this span for an instance, in place of the one that was found of it.
    fn replace(&mut self, key: Key, at: usize, span: Span)
        ensures spans { (before : Span) → IsFoundAt self.old key (at, before) → HasSpan self.old key span self.new }
        ensures links { self.new.links ≡ self.old.links }
        ensures whole { self.new.is_whole ≡ self.old.is_whole }
    {
        if self.is_latest(key) {
            self.latest = Some(Latest { key, span, at });
        } else {
            self.replace_at(at, span);
        }
    }

    /// Whether the spans of all have an instance at an index.
    fn is_at(&self, key: Key, at: usize) -> bool
        ensures { result ≡ true → (before : Span) × (slice_get self.now.spans.entries at ≡ Some (key, before)) }
    {
        match self.spans.get_index(at) {
            Some((other, _)) => *other == key,
            None => false,
        }
    }

    /// Has the spans of all say of an instance what is said of it here. Returns whether there was memory for that.
    #[inline(never)]
    fn put_back(&mut self, latest: Latest) -> bool
        ensures spans { result ≡ true → Updates same_key self.old.spans self.new.spans latest.key (Some latest.span) }
        ensures links { self.new.links ≡ self.old.links }
        ensures latest { self.new.latest ≡ self.old.latest }
        ensures whole { self.new.is_whole ≡ self.old.is_whole }
    {
        if self.is_at(latest.key, latest.at) {
            self.replace_at(latest.at, latest.span);
            return true;
        }
        self.spans.insert(latest.key, latest.span).is_ok()
    }

    /// Has this instance be the latest. What was said of the one before is put among the spans of all; returns whether there
    /// was memory for that.
    #[inline(always)]
    fn turn_to(&mut self, latest: Latest) -> bool
        ensures spans { result ≡ true → HasSpan self.old latest.key latest.span self.new }
        ensures links { self.new.links ≡ self.old.links }
        ensures whole { self.new.is_whole ≡ self.old.is_whole }
    {
        match mem::replace(&mut self.latest, Some(latest)) {
            None => true,
            Some(before) => before.key == latest.key || self.put_back(before),
        }
    }

    /// Has the last sample of an instance lead to a place behind all, and those of the instance end there, whether or not it
    /// has any. Returns whether there was memory for that.
    #[inline(never)]
    fn end_at(&mut self, key: Key, place: usize) -> bool
        ensures { result ≡ true → Leads self.old key place self.new }
    {
        let Some((at, mut span)) = self.find(key) else {
            return self.turn_to(Latest {
                key,
                span: Span::of_one(place),
                at: usize::MAX,
            });
        };
        let last = span.extend(place);
        if let Some(link) = self.links.get_mut(last) {
            *link = link_to(place);
        }
        self.turn_to(Latest { key, span, at })
    }

    /// Whether no instance has samples.
    fn has_none(&self) -> bool
        ensures spans { result ≡ true → (i : Key) → span_of self.now i ≡ None }
        ensures latest { result ≡ true → self.now.latest ≡ None }
    {
        self.latest.is_none() && self.spans.is_empty()
    }

    /// The same as `end_at`, and at once where no instance has samples.
    #[inline(always)]
    fn lead_to(&mut self, key: Key, place: usize) -> bool
        ensures { result ≡ true → Leads self.old key place self.new }
    {
        if self.has_none() {
            let span = Span::of_one(place);
            self.latest = Some(Latest {
                key,
                span,
                at: usize::MAX,
            });
            return true;
        }
        self.end_at(key, place)
    }

    /// Takes up that a sample of an instance is added as the last, at a place.
    #[inline(always)]
    pub fn append(&mut self, key: Key, place: usize)
        ensures { (ks : List Kept) (k : Kept) → place ≡ length ks → k.sample.key ≡ key
            → AreChainsOf ks self.old → AreChainsOf (ks ++ k ∷ []) self.new }
    {
        let has_span = self.lead_to(key, place);
        let has_link = self.links.push(u32::MAX).is_ok();
        self.is_whole &= has_link & has_span;
    }

    /// Where the samples of an instance begin, or those alone that were not read: none is before it, but for those that are
    /// gone.
    #[inline(always)]
    pub fn first(&self, key: Key, is_unread: bool) -> usize
        ensures first { (ks : List Kept) → AreChainsOf ks self.now → is_unread ≡ false → IsFirst ks key result }
        ensures unread { (ks : List Kept) → AreChainsOf ks self.now → is_unread ≡ true
            → IsFirstUnread ks key result }
    {
        if !self.is_whole {
            return 0;
        }
        match self.find(key) {
            None => usize::MAX,
            Some((_, span)) => { if is_unread { span.unread } else { span.first } }
        }
    }

    /// Where the next sample of an instance may be, after a place: none is between.
    pub fn next(&self, samples: &[Kept], key: Key, place: usize) -> usize
        requires within { place < length samples.now }
        ensures later { place < result }
        ensures between { AreChainsOf samples.now self.now → AreOthers samples.now key place result }
    {
        let following = place + 1;
        if !self.is_whole || samples[place].sample.key != key {
            return following;
        }
        match self.links.get(place) {
            Some(link) => following.max(*link as usize),
            None => following,
        }
    }

    /// Where the first sample of an instance is that is not gone, from a place on, or a place behind all.
    fn first_left(&self, samples: &[Kept], key: Key, from: usize) -> usize
        ensures { AreChainsOf samples.now self.now → IsFirst samples.now key from
            → IsFirst samples.now key result }
    {
        let mut place = from;
        while place < samples.len() && samples[place].is_out {
            place = self.next(samples, key, place);
        }
        place
    }

    /// The same of those that no read returned either.
    fn first_unread(&self, samples: &[Kept], key: Key, from: usize) -> usize
        ensures { AreChainsOf samples.now self.now → IsFirstUnread samples.now key from
            → IsFirstUnread samples.now key result }
    {
        let mut place = from;
        while place < samples.len() && (samples[place].is_out || samples[place].is_read) {
            place = self.next(samples, key, place);
        }
        place
    }

    /// Takes up that samples of an instance were read, or are gone: the others begin at the first that is left.
    pub fn advance(&mut self, samples: &[Kept], key: Key)
        ensures { AreChainsOf samples.now self.old → AreChainsOf samples.now self.new }
    {
        if !self.is_whole {
            return;
        }
        let Some((at, span)) = self.find(key) else {
            return;
        };
        let advanced = Span {
            first: self.first_left(samples, key, span.first),
            unread: self.first_unread(samples, key, span.unread),
            last: span.last,
        };
        self.replace(key, at, advanced);
    }
}
