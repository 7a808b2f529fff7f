// Points, vectors, normals, boxes and rays of floats, with the operations that a flat curve needs:
// core/geometry and core/pbrt.rs of pbrt-rust, by their names and in their order of operations.
// The Rust's generic types are structs of floats, and where it panics on a division by zero there is no answer.
// An operator is written for each of them, as in the Rust: no macro of the repository may write an impl, and one struct for
// points, vectors and normals would let them be mixed. A marker's type would keep them apart (`Tuple<Kind>`, with a PhantomData
// that each literal writes), but `scaled` and its like would name the kind, or be written for each kind as they are.
#![tactic(auto)]

mod bounds;
mod normal;
mod pbrt;
mod point;
mod ray;
mod vector;

pub use bounds::{BOUNDS_FLOATS, Bounds3f};
pub use normal::Normal3f;
pub use pbrt::{Interpolate, clamp, gamma, lerp};
pub use point::{POINT_FLOATS, Point2f, Point3f, point_from};
pub use ray::{RAY_FLOATS, Ray, ray_from};
pub use vector::{Crossed, Vector2f, Vector3f, vec3_coordinate_system, vector_from};
