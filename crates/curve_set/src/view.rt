// A kept set that is read.
ghost use Rattle.std.specs.Prelude.{◌≡◌, ◌≤◌, ◌<◌, IfSome, position};
ghost use Rattle.curve_set.specs.Kept.{named};
ghost use Rattle.curve_set.specs.Layout.{head_of, count_of, set_of};
ghost use Rattle.curve_set.specs.Best.{place_word, best_word, is_hit_at, nearer};
ghost use Rattle.curve_set.specs.Set.{own_of, shown_in, nearest_in};

use crate::layout::{
    COUNT, CURVE_ROOM, CURVES, HEAD_FLOATS, HEAD_WORDS, Head, IS_HIT, KIND, NEAREST, NUMBER,
    OBJECT_TO_WORLD, RAY, REVERSE, ROW_FLOATS, ROW_WORDS, SET_FLOATS, SET_WORDS, WORLD_TO_OBJECT,
};
use geometry::ray_from;
use interaction::{RECORD_FLOATS, SurfaceInteraction, record_from};
use limits::Refusal;
use matrix::matrix_from;

// The crossing at the place p, at the distance d, where it is nearer than the best so far.
fn nearer(best: Option<(usize, f32)>, p: usize, d: f32) -> Option<(usize, f32)>
    ensures { result ≡ nearer best p d }
{
    match best {
        Some((_, t)) if !(d < t) => best,
        _ => Some((p, d)),
    }
}

/// The two arrays that a caller lends as a set, to be read. No call trusts what it finds there.
#[derive(Clone, Copy, Debug, PartialEq)]
pub struct Set<'a> {
    pub floats: &'a [f32; SET_FLOATS],
    pub words: &'a [u32; SET_WORDS],
}

impl Set<'_> {
    // How many curves there are. A count above 64 reads as 64.
    #[tactic(auto, unfolding(crate::specs::Layout::count_of))]
    pub(crate) fn count(&self) -> usize
        ensures value { result ≡ count_of self.now.words.now }
        ensures most { result ≤ 64 }
    {
        (self.words[COUNT] as usize).min(CURVES)
    }

    // The place of the curve with that number.
    pub(crate) fn position(&self, number: u32) -> Option<usize>
        ensures { result ≡ position (named number) (set_of self.now.floats.now self.now.words.now) }
    {
        (0..self.count()).find(|p| self.words[HEAD_WORDS + NUMBER + p * ROW_WORDS] == number)
    }

    // Whether the curve at p is crossed.
    fn is_hit(&self, p: usize) -> bool
        requires { p < 64 }
        ensures { result ≡ is_hit_at self.now.words.now p }
    {
        self.words[HEAD_WORDS + KIND + p * ROW_WORDS] == IS_HIT
    }

    // The place of the nearest crossing, of those as near the first.
    pub(crate) fn best(&self) -> Option<usize>
        ensures word { place_word result ≡ best_word (set_of self.now.floats.now self.now.words.now) }
        ensures within { IfSome result (λ p. p < 64) }
    {
        let distance = |p: usize| self.floats[HEAD_FLOATS + CURVE_ROOM + p * ROW_FLOATS];
        (0..self.count())
            .filter(|p| self.is_hit(*p))
            .fold(None, |best, p| nearer(best, p, distance(p)))
            .map(|(p, _)| p)
    }

    #[tactic(auto, unfolding(crate::specs::Layout::head_of, crate::specs::Layout::head_from))]
    fn head(&self) -> Head
        ensures { result ≡ head_of self.now.floats.now self.now.words.now }
    {
        let floats = self.floats;
        let head = &floats[0..HEAD_FLOATS];
        Head {
            object_to_world: matrix_from(head, OBJECT_TO_WORLD),
            world_to_object: matrix_from(head, WORLD_TO_OBJECT),
            reverse: 0 < self.words[REVERSE],
            ray: ray_from(head, RAY),
        }
    }

    // A curve's own answer: that of `nearest` over it alone, along the ray of the set.
    pub(crate) fn own_answer(&self, curve: &[f32]) -> Result<Option<SurfaceInteraction>, Refusal>
        ensures { result ≡ own_of (head_of self.now.floats.now self.now.words.now) curve.now }
    {
        let head = self.head();
        let hit = nearest::nearest(
            curve,
            head.object_to_world,
            head.world_to_object,
            head.reverse,
            head.ray,
        )?;
        Ok(hit.map(|(record, _)| record))
    }

    // What the curve at p shows.
    #[tactic(auto, unfolding(crate::specs::Set::shown_in))]
    fn shown(&self, p: usize) -> Option<(SurfaceInteraction, u32)>
        requires { p < 64 }
        ensures { result ≡ shown_in self.now.floats.now self.now.words.now p }
    {
        if !self.is_hit(p) {
            return None;
        }
        let from = HEAD_FLOATS + CURVE_ROOM + p * ROW_FLOATS;
        let floats = self.floats;
        let record = record_from(&floats[from..from + RECORD_FLOATS]);
        Some((record, self.words[HEAD_WORDS + NUMBER + p * ROW_WORDS]))
    }

    /// The nearest crossing of the curves that are there, with its curve's number: what the kept place shows. A place that
    /// is none of theirs shows a miss.
    pub fn nearest(&self) -> Option<(SurfaceInteraction, u32)>
        ensures { result ≡ nearest_in self.now.floats.now self.now.words.now }
    {
        let p = (self.words[NEAREST] as usize).checked_sub(1)?;
        if p < self.count() {
            self.shown(p)
        } else {
            None
        }
    }
}
