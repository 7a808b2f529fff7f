// A kept set that is changed. Nothing is asked of a caller, and no call trusts what it finds in the arrays.
ghost use Rattle.std.specs.Prelude.{◌≡◌, ◌<◌, length};
ghost use Rattle.limits.specs.Refused.{told};
ghost use Rattle.curve.specs.Layout as layout;
ghost use Rattle.curve_set.specs.Layout.{size, answer_floats, count_of, set_of};
ghost use Rattle.curve_set.specs.Kept as kept;
ghost use Rattle.curve_set.specs.Calls.{opened, answer_to, changed_by};
ghost use Rattle.curve_set.specs.Set.{is_bad, open_answer};
ghost use Rattle.curve_set.specs.Lent.{lent_of, holding, with_head, with_row, without_row, with_best};

use crate::layout::{
    COUNT, CURVE_ROOM, CURVES, HEAD_FLOATS, HEAD_WORDS, Head, NEAREST, OBJECT_TO_WORLD, RAY,
    ROW_FLOATS, ROW_WORDS, SET_FLOATS, SET_WORDS, SPARE, THIS_RULE, WORLD_TO_OBJECT,
};
use crate::view::Set;
use arrays::{copy, move_down};
use curve::{FLOATS, is_curve};
use geometry::RAY_FLOATS;
use interaction::{RECORD_FLOATS, SurfaceInteraction};
use limits::{Refusal, check_ray};
use matrix::MATRIX_FLOATS;

// An answer as floats: those of its record, or zeros.
fn floats_of(hit: Option<SurfaceInteraction>) -> [f32; RECORD_FLOATS]
    ensures { result ≡ answer_floats hit }
{
    match hit {
        Some(record) => record.into(),
        None => [0.0; RECORD_FLOATS],
    }
}

/// The two arrays that a caller lends as a set, to be changed.
#[derive(Debug, Drop)]
pub struct SetMut<'a> {
    pub floats: &'a mut [f32; SET_FLOATS],
    pub words: &'a mut [u32; SET_WORDS],
}

impl SetMut<'_> {
    fn view(&self) -> Set<'_>
        ensures floats { result.floats.now ≡ self.now.floats.now }
        ensures words { result.words.now ≡ self.now.words.now }
    {
        Set {
            floats: self.floats,
            words: self.words,
        }
    }

    // An empty set under that head.
    fn put_head(&mut self, head: Head)
        ensures { self.new ≡ holding self.old (with_head head (lent_of self.old)) }
    {
        let object_to_world: [f32; MATRIX_FLOATS] = head.object_to_world.into();
        let world_to_object: [f32; MATRIX_FLOATS] = head.world_to_object.into();
        let ray: [f32; RAY_FLOATS] = head.ray.into();
        copy(self.floats, OBJECT_TO_WORLD, &object_to_world);
        copy(self.floats, WORLD_TO_OBJECT, &world_to_object);
        copy(self.floats, RAY, &ray);
        copy(self.words, COUNT, &[0, 0, u32::from(head.reverse)]);
    }

    // A curve behind those that are there, with its answer.
    fn put_row(&mut self, number: u32, curve: &[f32], hit: Option<SurfaceInteraction>)
        requires room { count_of self.old.words.now < 64 }
        requires whole { length curve.now ≡ layout.floats }
        ensures { self.new ≡ holding self.old (with_row number curve.now hit (lent_of self.old)) }
    {
        let n = self.view().count();
        let at = HEAD_FLOATS + n * ROW_FLOATS;
        copy(self.floats, at, curve);
        copy(self.floats, at + FLOATS, &[0.0; SPARE]);
        copy(self.floats, at + CURVE_ROOM, &floats_of(hit));
        let row = [number, THIS_RULE, u32::from(hit.is_some())];
        copy(self.words, HEAD_WORDS + n * ROW_WORDS, &row);
        self.words[COUNT] = n as u32 + 1;
    }

    // The curve at p goes, and those behind it move down.
    fn take_row(&mut self, p: usize)
        requires { p < count_of self.old.words.now }
        ensures { self.new ≡ holding self.old (without_row p (lent_of self.old)) }
    {
        let n = self.view().count();
        let left = n - (p + 1);
        move_down(
            self.floats,
            HEAD_FLOATS + p * ROW_FLOATS,
            HEAD_FLOATS + (p + 1) * ROW_FLOATS,
            left * ROW_FLOATS,
        );
        move_down(
            self.words,
            HEAD_WORDS + p * ROW_WORDS,
            HEAD_WORDS + (p + 1) * ROW_WORDS,
            left * ROW_WORDS,
        );
        self.words[COUNT] = n as u32 - 1;
    }

    // The nearest, chosen anew from the answers that are kept.
    fn choose(&mut self)
        ensures { self.new ≡ holding self.old (with_best (lent_of self.old)) }
    {
        let word = self.view().best().map_or(0, |p| p as u32 + 1);
        // By `copy`: after a write by the place a proof has to know that the array is longer, and nothing hands it its length.
        copy(self.words, NEAREST, &[word]);
    }

    /// Empties the set and fixes its ray, unless `Matrix` or `Ray` is told.
    pub fn open(&mut self, head: Head) -> Result<(), Refusal>
        ensures value { result ≡ open_answer head }
        ensures after { self.new ≡ holding self.old (opened head (lent_of self.old)) }
    {
        check_ray(head.object_to_world, head.world_to_object, head.ray)?;
        self.put_head(head);
        Ok(())
    }

    // What an add is refused for before its curve is walked.
    fn check_add(&self, number: u32, curve: &[f32]) -> Result<(), Refusal>
        ensures { result ≡ told (kept.early size is_bad (set_of self.now.floats.now self.now.words.now) number curve.now) (Ok tt) }
    {
        if !is_curve(curve) {
            return Err(Refusal::Curve);
        }
        if self.view().position(number).is_some() {
            return Err(Refusal::NumberPresent);
        }
        if self.view().count() >= CURVES {
            return Err(Refusal::SetFull);
        }
        Ok(())
    }

    /// Adds a curve behind all that are there: `Curve`, `NumberPresent`, `SetFull`, then what `nearest` refuses over it
    /// alone.
    pub fn add(&mut self, number: u32, curve: &[f32]) -> Result<(), Refusal>
        ensures value { result ≡ answer_to (kept.add number curve.now) (lent_of self.old) }
        ensures after { self.new ≡ holding self.old (changed_by (kept.add number curve.now) (lent_of self.old)) }
    {
        self.check_add(number, curve)?;
        let hit = self.view().own_answer(curve)?;
        self.put_row(number, curve, hit);
        self.choose();
        Ok(())
    }

    /// Takes the curve with that number out, unless `NumberMissing` is told.
    pub fn remove(&mut self, number: u32) -> Result<(), Refusal>
        ensures value { result ≡ answer_to (kept.remove number) (lent_of self.old) }
        ensures after { self.new ≡ holding self.old (changed_by (kept.remove number) (lent_of self.old)) }
    {
        let p = self.view().position(number).ok_or(Refusal::NumberMissing)?;
        self.take_row(p);
        self.choose(); // the curve that went may have been the nearest
        Ok(())
    }
}
