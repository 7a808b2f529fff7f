// Why an operation refuses what it is given: each reason with its number, which callers in C and the report are told, and
// its sentence.
ghost use Rattle.std.specs.Prelude.{◌≡◌};
ghost use Rattle.limits.specs.Refused.{number_of};

use std::error::Error;
use std::fmt;

/// Why a call was refused. Of several reasons the one that comes first in the call's order is told.
#[derive(Clone, Copy, Debug, PartialEq, Eq, Hash)]
pub enum Refusal {
    /// The degree is not 2 or 3.
    Degree = 1,
    /// The basis is not Bezier or B-spline.
    Basis = 2,
    /// The points do not make whole segments.
    PointCount = 3,
    /// The type is not flat.
    Type = 4,
    /// The split depth is over 10.
    SplitDepth = 5,
    /// Over 256 points, or over 1,024 curves.
    TooMany = 6,
    /// A coordinate or a width is off limits.
    PointsOrWidths = 7,
    /// The list is shorter than a record for each curve.
    ListTooShort = 8,
    /// The floats are not a curve within the limits.
    Curve = 9,
    /// An entry of a matrix is off limits.
    Matrix = 10,
    /// A number of the ray is off limits.
    Ray = 11,
    /// A point has a weight of zero under a matrix.
    ZeroWeight = 12,
    /// A direction has length zero where the ray's frame is made.
    NoFrame = 13,
    /// At the hit the derivative along the curve is zero.
    ZeroDerivative = 14,
    /// At the hit the vector across the curve has length zero.
    ZeroAcross = 15,
    /// At the hit the normal, or the way back, has length zero.
    ZeroNormal = 16,
    /// A line of the sheet is wrong or missing.
    WrongLine = 17,
    /// The sheet has over 65,536 bytes.
    SheetTooLong = 18,
    /// The length of the list is no whole number of curves.
    ListLength = 19,
    /// The rate is too high.
    Rate = 20,
    /// The price is too high.
    Price = 21,
    /// Two neighbouring points are equal in all three coordinates. -0 equals 0, and a NaN equals nothing.
    EqualNeighbours = 22,
    /// The set has no room for another curve.
    SetFull = 23,
    /// A curve of the set has the number already.
    NumberPresent = 24,
    /// No curve of the set has the number.
    NumberMissing = 25,
}

impl Refusal {
    /// The number of the refusal, from 1 to 25. 0 is no refusal.
    pub fn number(self) -> u32
        ensures { result ≡ number_of self }
    {
        self as u32
    }
}

impl fmt::Display for Refusal {
    fn fmt<W: fmt::Write>(&self, f: &mut fmt::Formatter<W>) -> fmt::Result {
        f.write_str(match self {
            Refusal::Degree => "the degree is not 2 or 3",
            Refusal::Basis => "the basis is not Bezier or B-spline",
            Refusal::PointCount => "the points do not make whole segments",
            Refusal::Type => "the type is not flat",
            Refusal::SplitDepth => "the split depth is over 10",
            Refusal::TooMany => "there are over 256 points, or over 1,024 curves",
            Refusal::PointsOrWidths =>
                "a coordinate is not finite or beyond ±1,048,576, or a width is outside 1/1024 to 1,024",
            Refusal::ListTooShort => "the list is too short for the curves",
            Refusal::Curve =>
                "the floats are not a curve with coordinates within ±2,097,152, widths from 1/2048 to 2,048 and 0 ≤ umin < umax ≤ 1",
            Refusal::Matrix => "an entry of a matrix is not finite or beyond ±1,048,576",
            Refusal::Ray =>
                "an origin, direction or time is not finite or beyond ±1,048,576, or t_max is negative or a NaN",
            Refusal::ZeroWeight => "the weight of a point under a matrix is zero",
            Refusal::NoFrame => "a direction has length zero where the ray's frame is made",
            Refusal::ZeroDerivative => "the derivative along the curve is zero at the hit",
            Refusal::ZeroAcross => "the vector across the curve has length zero at the hit",
            Refusal::ZeroNormal => "the normal or the way back has length zero at the hit",
            Refusal::WrongLine => "a line of the sheet is wrong or missing",
            Refusal::SheetTooLong => "the sheet has over 65,536 bytes",
            Refusal::ListLength => "the length of the list is no whole number of curves",
            Refusal::Rate => "the rate is over 1,000,000 cents a square metre",
            Refusal::Price => "the price is over 1,000,000,000 cents",
            Refusal::EqualNeighbours => "two neighbouring points are equal",
            Refusal::SetFull => "the set is full",
            Refusal::NumberPresent => "a curve of the set has the number already",
            Refusal::NumberMissing => "no curve of the set has the number",
        })
    }
}

impl Error for Refusal {}
