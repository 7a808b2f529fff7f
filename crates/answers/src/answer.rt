// The words of an answer. What has no room is None (`Words::push`).
use geometry::{Bounds3f, Point3f, RAY_FLOATS, Ray, Vector3f};
use limits::Refusal;
use lines::Words;
use matrix::{MATRIX_FLOATS, Matrix4x4};

// Room for the words of any answer.
const ANSWER_WORDS: usize = 96;

// The status of an answer that is no refusal, as the oracle's lines have it.
pub(crate) const DONE: u32 = 0;

#[derive(Clone, Copy, Debug, PartialEq, Eq)]
pub struct Answer {
    pub words: Words<ANSWER_WORDS>,
}

impl Answer {
    // An answer that has no words where the Rust panics.
    pub(crate) fn option<T: Drop, F: FnOnce(&mut Answer, T) -> Option<()>>(
        &mut self,
        answer: Option<T>,
        put: F,
    ) -> Option<()>
        requires { F.IsAlwaysCallable put }
    {
        match answer {
            Some(value) => put(self, value),
            None => Some(()),
        }
    }

    // An answer that may be refused: the status, and behind it what there is where it is done.
    pub(crate) fn outcome<T: Drop, F: FnOnce(&mut Answer, T) -> Option<()>>(
        &mut self,
        answer: Result<T, Refusal>,
        put: F,
    ) -> Option<()>
        requires { F.IsAlwaysCallable put }
    {
        match answer {
            Ok(value) => {
                self.word(DONE)?;
                put(self, value)
            }
            Err(refusal) => self.word(refusal.number()),
        }
    }

    pub(crate) fn word(&mut self, word: u32) -> Option<()> {
        self.words.push(word)
    }

    pub(crate) fn float(&mut self, x: f32) -> Option<()> {
        self.words.push(float::to_bits(x))
    }

    pub(crate) fn floats(&mut self, floats: &[f32]) -> Option<()> {
        for x in floats {
            self.float(*x)?;
        }
        Some(())
    }

    pub(crate) fn vector(&mut self, v: Vector3f) -> Option<()> {
        self.floats(&[v.x, v.y, v.z])
    }

    pub(crate) fn point(&mut self, p: Point3f) -> Option<()> {
        self.vector(Vector3f::from(p))
    }

    pub(crate) fn bounds(&mut self, b: Bounds3f) -> Option<()> {
        self.point(b.p_min)?;
        self.point(b.p_max)
    }

    pub(crate) fn matrix(&mut self, m: Matrix4x4) -> Option<()> {
        self.floats(&<[f32; MATRIX_FLOATS]>::from(m))
    }

    pub(crate) fn ray(&mut self, r: Ray) -> Option<()> {
        self.floats(&<[f32; RAY_FLOATS]>::from(r))
    }
}
