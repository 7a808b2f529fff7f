// What a curve shape is made of beside its points, once its degree, its basis, its type and its split depth are known to
// be right.
ghost use Rattle.std.specs.Prelude.{◌≡◌, ◌≤◌};

use limits::Refusal;

#[derive(Clone, Copy, Debug, PartialEq, Eq, Hash)]
pub enum Degree {
    Quadratic = 2,
    Cubic = 3,
}

// A match where a degree or a basis is asked for: as types with a trait, the call would choose among four copies of itself by
// the same match.
#[derive(Clone, Copy, Debug, PartialEq, Eq, Hash)]
pub enum Basis {
    Bezier = 0,
    BSpline = 1,
}

impl Degree {
    ghost use Rattle.create.specs.Shape.{degree_number};

    pub fn number(self) -> usize
        ensures { result ≡ degree_number self }
    {
        self as usize
    }
}

/// The degree of that number, or refusal 1.
impl TryFrom<u32> for Degree {
    ghost use Rattle.std.specs.Prelude.{false, MatchResult};
    ghost use Rattle.limits.specs.declared.refusal.Refusal.TheVariants as refusal;
    ghost use Rattle.create.specs.Shape.{degree_number, is_degree};

    type Error = Refusal;

    ghost try_from_gives = { λ n r. MatchResult r (λ d. n ≡ degree_number d) (λ e. (e ≡ refusal.Degree) × (is_degree n ≡ false)) };

    fn try_from(n: u32) -> Result<Degree, Refusal> {
        match n {
            2 => Ok(Degree::Quadratic),
            3 => Ok(Degree::Cubic),
            _ => Err(Refusal::Degree),
        }
    }
}

/// The basis of that number, or refusal 2.
impl TryFrom<u32> for Basis {
    ghost use Rattle.std.specs.Prelude.{◌<◌, MatchResult};
    ghost use Rattle.limits.specs.declared.refusal.Refusal.TheVariants as refusal;
    ghost use Rattle.create.specs.Shape.{basis_number};

    type Error = Refusal;

    ghost try_from_gives = { λ n r. MatchResult r (λ b. n ≡ basis_number b) (λ e. (e ≡ refusal.Basis) × (1 < n)) };

    fn try_from(n: u32) -> Result<Basis, Refusal> {
        match n {
            0 => Ok(Basis::Bezier),
            1 => Ok(Basis::BSpline),
            _ => Err(Refusal::Basis),
        }
    }
}

// Flat, and with a split depth that passed refusal 5.
#[derive(Clone, Copy, Debug, PartialEq)]
pub struct Shape {
    pub degree: Degree,
    pub basis: Basis,
    pub width0: f32,
    pub width1: f32,
    pub splitdepth: u32,
    ghost split: { splitdepth ≤ 10 },
}

impl Shape {
    ghost use Rattle.create.specs.Basis.{stride_of};
    ghost use Rattle.create.specs.Create.{segment_count, part_count, curve_count};
    ghost use Rattle.create.specs.Shape.{degree_number, basis_number, params_in};

    // How many segments n points make: none for a Bezier curve of one point.
    #[tactic(auto, unfolding(crate::specs::Create::segment_count))]
    pub fn segment_count(self, n: usize) -> usize
        ensures { result ≡ segment_count n (degree_number self.degree) (basis_number self.basis) }
    {
        let degree = self.degree.number();
        match self.basis {
            Basis::Bezier => n.saturating_sub(1) / degree,
            Basis::BSpline => n.saturating_sub(degree),
        }
    }

    // How many curves a segment is split into.
    pub fn part_count(self) -> u16
        ensures { result ≡ part_count self.splitdepth }
    {
        1u16 << self.splitdepth
    }

    // How many curves n points make.
    #[tactic(auto, unfolding(crate::specs::Create::curve_count))]
    pub fn curve_count(self, n: usize) -> usize
        requires { n ≤ 256 }
        ensures { result ≡ curve_count n (params_in self) }
    {
        self.segment_count(n) * self.part_count() as usize
    }

    // How many floats a segment starts behind the one before: Bezier segments share their end points alone, and a
    // B-spline's all points but one.
    #[tactic(auto, unfolding(crate::specs::Basis::stride_of))]
    pub fn stride(self) -> usize
        ensures { result ≡ stride_of (degree_number self.degree) (basis_number self.basis) }
    {
        match self.basis {
            Basis::Bezier => 3 * self.degree.number(),
            Basis::BSpline => 3,
        }
    }
}
